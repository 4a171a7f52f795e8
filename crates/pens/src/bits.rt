// BIT STRING (13): the contents are there, their unused bits are 0 (11), their size (7), what stands before them.
ghost use Rattle.std.specs.Prelude.{◌^◌, ◌<◌, ◌≤◌, length};
ghost use Rattle.x696.specs.Bits.{bit_octets};
ghost use Rattle.x696.specs.Leaf.{bit_string};
ghost use Rattle.pens.specs.Flat.{Headed, Stored, bits_head};

use crate::head::Head;
use octets::faults::Cause;
use octets::lengths::put_length;
use octets::presence::low_bits_clear;
use octets::units::{Bits, Octets};
use octets::words::put;
use table::bounds::Bounds;

// Nothing before contents of a fixed size (13.2), else the determinant of one octet more than they fill, and the
// unused-bits octet (13.3.1, 13.3.2).
fn put_bits_head(bounds: Bounds, size: Bits, to: usize, out: &mut [u8]) -> usize
    requires { (to < 2 ^ 40) × (bit_octets size.0 < 2 ^ 40) }
    ensures { Stored out.old out.new to result (bits_head bounds.flags bounds.a bounds.b size.0) }
{
    if bounds.is_fixed() {
        return to;
    }
    let filled = size.octets();
    let next = put_length(out, to, Octets(filled.0 + 1));
    put(out, next, size.unused() as u8);
    next + 1
}

pub fn begin_bits(
    bounds: Bounds,
    n: u64,
    contents: &[u8],
    used: usize,
    to: usize,
    out: &mut [u8],
) -> Result<Head, Cause>
    requires { (used ≤ length contents.now) × (length contents.now ≤ 65535) × (to < 2 ^ 40) }
    ensures { Headed (bit_string bounds.flags bounds.a bounds.b) contents.now n used to out.old out.new result }
{
    let size = Bits(n);
    let whole = size.octets();
    let filled = whole.0;
    if ((contents.len() - used) as u64) < filled {
        return Err(Cause::BadList);
    }
    // unused bits are 0 (13.2.2, 13.3.3)
    if !low_bits_clear(contents, used, filled as usize, size.unused() as usize) {
        return Err(Cause::BadList);
    }
    if !bounds.allows_size(n) {
        return Err(Cause::NotAllowed);
    }
    Ok(Head {
        filled: filled as usize,
        to: put_bits_head(bounds, size, to, out),
    })
}
