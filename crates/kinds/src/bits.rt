// BIT STRING (13): of a fixed size its contents alone, else behind a length determinant and the unused-bits octet.
ghost use Rattle.std.specs.Prelude.{◌+◌, ◌<◌, ◌≤◌, length};
ghost use Rattle.x696.specs.Leaf.{bit_string};
ghost use Rattle.kinds.specs.Run.{Ran, leaf_at, fixed_bits_at, bits_run_at};

use crate::cursor::Cursor;
use octets::answers::Piece;
use octets::faults::{Cause, Fault};
use octets::lengths::read_run;
use octets::nodes::put_node;
use octets::presence::low_bits_clear;
use octets::units::Bits;
use octets::words::{copy, octet};
use table::bounds::Bounds;
use table::kind::Kind;

// A fixed size (13.2).
fn fixed_bits(
    size: Bits,
    msg: &[u8],
    at: usize,
    count: usize,
    used: usize,
    nodes: &mut [u64],
    contents: &mut [u8],
) -> Result<Cursor, Fault>
    requires { (count < 4096) × (at ≤ length msg.now) × (used ≤ at) }
    ensures { Ran msg.now (fixed_bits_at size.0 msg.now at count) at count used nodes.old contents.old nodes.new contents.new result }
{
    let filled = size.octets();
    let n = filled.0;
    if ((msg.len() - at) as u64) < n {
        return Err(Cause::Short.at(at));
    }
    // unused bits are 0 (13.2.2)
    if !low_bits_clear(msg, at, n as usize, size.unused() as usize) {
        return Err(Cause::NotCanonical.at(at));
    }
    put_node(nodes, count, Kind::BitString.number(), size.0);
    copy(msg, at, n as usize, contents, used);
    Ok(Cursor {
        at: at + n as usize,
        count: count + 1,
        used: used + n as usize,
        number: size.0,
    })
}

// The n octets from `start` on that a determinant counts: the unused-bits octet and the contents (13.3).
// Their bits are counted in a word: a message has at most 65,535 octets.
fn bits_in(
    bounds: Bounds,
    msg: &[u8],
    at: usize,
    start: usize,
    n: usize,
    count: usize,
    used: usize,
    nodes: &mut [u64],
    contents: &mut [u8],
) -> Result<Cursor, Fault>
    requires { (count < 4096) × (at ≤ start) × (start + n ≤ length msg.now) × (used ≤ at) × (length msg.now ≤ 65535) }
    ensures { Ran msg.now (bits_run_at bounds.flags bounds.a bounds.b msg.now at start n count) at count used nodes.old contents.old nodes.new contents.new result }
{
    // the unused-bits octet is there (13.3.1), 0 to 7 (13.3.2)
    if n == 0 {
        return Err(Cause::NotCanonical.at(at));
    }
    let unused = octet(msg, start);
    if 7 < unused {
        return Err(Cause::NotCanonical.at(at));
    }
    let k = n - 1;
    // it is 0 where there are no contents (13.3.4)
    if k as u64 * 8 < unused {
        return Err(Cause::NotCanonical.at(at));
    }
    // unused bits are 0 (13.3.3)
    if !low_bits_clear(msg, start + 1, k, unused as usize) {
        return Err(Cause::NotCanonical.at(at));
    }
    let size = k as u64 * 8 - unused;
    if !bounds.allows_size(size) {
        return Err(Cause::NotAllowed.at(at));
    }
    put_node(nodes, count, Kind::BitString.number(), size);
    copy(msg, start + 1, k, contents, used);
    Ok(Cursor {
        at: start + n,
        count: count + 1,
        used: used + k,
        number: size,
    })
}

pub fn read_bits(
    bounds: Bounds,
    msg: &[u8],
    at: usize,
    count: usize,
    used: usize,
    nodes: &mut [u64],
    contents: &mut [u8],
) -> Result<Cursor, Fault>
    requires { (count < 4096) × (at ≤ length msg.now) × (used ≤ at) × (length msg.now ≤ 65535) }
    ensures { Ran msg.now (leaf_at (bit_string bounds.flags bounds.a bounds.b) msg.now at count) at count used nodes.old contents.old nodes.new contents.new result }
{
    if bounds.is_fixed() {
        return fixed_bits(Bits(bounds.a), msg, at, count, used, nodes, contents);
    }
    let run = read_run(msg, at, at)?;
    bits_in(
        bounds,
        msg,
        at,
        run.start,
        run.length.0 as usize,
        count,
        used,
        nodes,
        contents,
    )
}
