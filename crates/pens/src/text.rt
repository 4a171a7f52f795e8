// OCTET STRING (14) and VisibleString (27): the contents are there (11), their size and characters (7), and what stands
// before them.
ghost use Rattle.std.specs.Prelude.{◌^◌, ◌<◌, ◌≤◌, length};
ghost use Rattle.kinds.specs.Run.{text_leaf};
ghost use Rattle.pens.specs.Flat.{Headed, Stored, text_head};

use crate::head::Head;
use kinds::text::has_characters;
use octets::faults::Cause;
use octets::lengths::put_length;
use octets::units::Octets;
use table::bounds::Bounds;

// Nothing before contents of a fixed size (14.1), else their length determinant (14.2).
fn put_text_head(bounds: Bounds, n: u64, to: usize, out: &mut [u8]) -> usize
    requires { to < 2 ^ 40 }
    ensures { Stored out.old out.new to result (text_head bounds.flags bounds.a bounds.b n) }
{
    if bounds.is_fixed() {
        return to;
    }
    put_length(out, to, Octets(n))
}

pub fn begin_text(
    shown: bool,
    bounds: Bounds,
    n: u64,
    contents: &[u8],
    used: usize,
    to: usize,
    out: &mut [u8],
) -> Result<Head, Cause>
    requires { (used ≤ length contents.now) × (to < 2 ^ 40) }
    ensures { Headed (text_leaf shown bounds.flags bounds.a bounds.b) contents.now n used to out.old out.new result }
{
    if ((contents.len() - used) as u64) < n {
        return Err(Cause::BadList);
    }
    if !bounds.allows_size(n) {
        return Err(Cause::NotAllowed);
    }
    if !has_characters(shown, contents, used, n as usize) {
        return Err(Cause::NotAllowed);
    }
    Ok(Head {
        filled: n as usize,
        to: put_text_head(bounds, n, to, out),
    })
}
