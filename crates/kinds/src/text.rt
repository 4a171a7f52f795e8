// OCTET STRING (14) and VisibleString (27): the run, its size, its characters.
ghost use Rattle.std.specs.Prelude.{◌≡◌, not, ◌||◌, ◌+◌, ◌<◌, ◌≤◌, length, take, drop};
ghost use Rattle.x696.specs.String.{visible};
ghost use Rattle.octets.specs.Answers.{RunAnswer};
ghost use Rattle.kinds.specs.Run.{Ran, leaf_at, text_leaf, text_run};

use crate::cursor::Cursor;
use octets::answers::Piece;
use octets::faults::{Cause, Fault};
use octets::lengths::{read_run, run_at};
use octets::nodes::put_node;
use octets::strings::is_visible;
use octets::words::copy;
use table::bounds::Bounds;
use table::kind::Kind;

// The contents: alone where the size is fixed (14.1), else behind a length determinant (14.2).
fn run_of(bounds: Bounds, msg: &[u8], at: usize) -> Result<Piece, Fault>
    requires { at ≤ length msg.now }
    ensures { RunAnswer msg.now (text_run bounds.flags bounds.a bounds.b at (drop at msg.now)) at result }
{
    if bounds.is_fixed() {
        run_at(msg, at, bounds.a, at)
    } else {
        read_run(msg, at, at)
    }
}

// Whether the n octets from `used` on are characters of the string's type: any are an OCTET STRING's.
pub fn has_characters(shown: bool, contents: &[u8], used: usize, n: usize) -> bool
    requires { used + n ≤ length contents.now }
    ensures { result ≡ not shown || visible (take n (drop used contents.now)) }
{
    !shown || is_visible(contents, used, n)
}

// A VisibleString where its characters are to be shown, else an OCTET STRING.
pub fn read_text(
    shown: bool,
    bounds: Bounds,
    msg: &[u8],
    at: usize,
    count: usize,
    used: usize,
    nodes: &mut [u64],
    contents: &mut [u8],
) -> Result<Cursor, Fault>
    requires { (count < 4096) × (at ≤ length msg.now) × (used ≤ at) }
    ensures { Ran msg.now (leaf_at (text_leaf shown bounds.flags bounds.a bounds.b) msg.now at count) at count used nodes.old contents.old nodes.new contents.new result }
{
    let run = run_of(bounds, msg, at)?;
    let n = run.length.0;
    if !bounds.allows_size(n) {
        return Err(Cause::NotAllowed.at(at));
    }
    if !has_characters(shown, msg, run.start, n as usize) {
        return Err(Cause::NotAllowed.at(at));
    }
    let kind = if shown {
        Kind::VisibleString
    } else {
        Kind::OctetString
    };
    put_node(nodes, count, kind.number(), n);
    copy(msg, run.start, n as usize, contents, used);
    Ok(Cursor {
        at: run.start + n as usize,
        count: count + 1,
        used: used + n as usize,
        number: n,
    })
}
