// Parts of the readers of groups: presence bits counted, a component that is not carried, a DEFAULT that is.
ghost use Rattle.std.specs.Prelude.{◌≡◌, true, cond, not, ◌&&◌, List, [], ℕ, ◌+◌, ◌/◌, ◌<◌, ◌≤◌, length, take, drop, eqb};
ghost use Rattle.x696.specs.Outcome.{got};
ghost use Rattle.x696.specs.Value.{node, no_values};
ghost use Rattle.x696.specs.Types.{Ty, presence_count, mark_count};
ghost use Rattle.x696.specs.Read.{message, counted};
ghost use Rattle.x696.specs.Operations.{node_limit};
ghost use Rattle.x696.specs.Table.{row_width, row_kind, item_width, component_mark, component_default, components_from};
ghost use Rattle.kinds.specs.Run.{Ran};
ghost use Rattle.x696.specs.Bits.{bit_octets, unused_bits, low_bits_clear};
ghost use Rattle.octets.specs.Presence.{bit_at};
ghost use Rattle.reading.specs.Parts.{checked};
ghost use Rattle.reading.specs.Members.{member_row, member_mark};

use kinds::cursor::Cursor;
use octets::faults::{Cause, Fault};
use octets::nodes::put_node;
use octets::presence::{is_present, low_bits_clear};
use table::words::{component_default, component_mark, component_row, row_kind};

// 1 where item i has a presence bit (16.2.3).
pub fn is_marked(items: &[u64], i: usize) -> usize
    requires { i < length items.now / item_width }
    ensures { (result ≡ presence_count (component_mark items.now i)) × (result ≤ 1) }
{
    bit_of(component_mark(items, i))
}

// How many of n components have one.
pub fn count_marked(items: &[u64], first: usize, n: usize) -> usize
    requires { first + n ≤ length items.now / item_width }
    ensures { (((f : ℕ → Ty) → result ≡ mark_count (components_from f items.now first n))) × (result ≤ n) }
{
    let mut sum = 0;
    for i in (0..n).rev() {
        sum += is_marked(items, first + i);
    }
    sum
}

// Whether the unused bits behind n presence bits are 0 (16.2.4).
pub fn is_padded(msg: &[u8], at: usize, n: usize) -> bool
    requires { (n ≤ 1024) × (at + bit_octets n ≤ length msg.now) }
    ensures { result ≡ low_bits_clear (unused_bits n) (take (bit_octets n) (drop at msg.now)) }
{
    // `div_ceil` would be five instructions in place of two
    let octets = (n + 7) / 8;
    low_bits_clear(msg, at, octets, octets * 8 - n)
}

// A component that is not carried: its node alone, ABSENT or its DEFAULT.
pub fn read_missing(
    kind: u64,
    number: u64,
    msg: &[u8],
    at: usize,
    count: usize,
    used: usize,
    nodes: &mut [u64],
) -> Result<Cursor, Fault>
    requires { at ≤ length msg.now }
    ensures { (b : List ℕ) → Ran msg.now (counted node_limit (length msg.now) (message (drop at msg.now) count) (λ s. got (node kind number [] no_values) s)) at count used nodes.old b nodes.new b result }
{
    if 4096 <= count {
        return Err(Cause::Nodes.at(at));
    }
    put_node(nodes, count, kind, number);
    Ok(Cursor {
        at,
        count: count + 1,
        used,
        number,
    })
}

// The row of a group's member: that of item i where members are listed.
pub fn member_row(items: &[u64], inner: usize, listed: bool, i: usize) -> usize
    requires { listed ≡ true → i < length items.now / item_width }
    ensures { result ≡ member_row items.now inner listed i }
{
    if listed {
        component_row(items, i) as usize
    } else {
        inner
    }
}

pub fn member_mark(items: &[u64], listed: bool, i: usize) -> u64
    requires { listed ≡ true → i < length items.now / item_width }
    ensures { result ≡ member_mark items.now listed i }
{
    if listed { component_mark(items, i) } else { 0 }
}

// 1 where a component with this mark has a presence bit.
pub fn bit_of(mark: u64) -> usize
    ensures { (result ≡ presence_count mark) × (result ≤ 1) }
{
    usize::from(mark != 0)
}

// Whether a component with this mark, and presence bit b of the preamble at `pre`, is not carried.
pub fn is_missing(msg: &[u8], pre: usize, b: usize, mark: u64) -> bool
    requires { (mark ≡ 0 → ⊥) → (pre ≤ length msg.now) × (b < 1024) }
    ensures { result ≡ not (eqb mark 0) && not (eqb (bit_at msg.now pre b) 1) }
{
    if mark == 0 {
        return false;
    }
    !is_present(msg, pre, b)
}

// The kind of the node that then stands for it: ABSENT, or its DEFAULT's.
pub fn missing_kind(rows: &[u64], row: usize, mark: u64) -> u64
    requires { row < length rows.now / row_width }
    ensures { result ≡ cond (eqb mark 1) 0 (row_kind rows.now row) }
{
    if mark == 1 { 0 } else { row_kind(rows, row) }
}

// Whether a component that is carried has the number of its DEFAULT, which item i gives (31.9).
pub fn is_default(items: &[u64], i: usize, mark: u64, number: u64) -> bool
    requires { (mark ≡ 2) → i < length items.now / item_width }
    ensures { result ≡ eqb mark 2 && eqb number (component_default items.now i) }
{
    if mark != 2 {
        return false;
    }
    number == component_default(items, i)
}

// A component that is carried must not equal its DEFAULT (31.9).
pub fn check_default(mark: u64, default: u64, place: usize, c: Cursor) -> Result<Cursor, Fault>
    ensures { result ≡ checked mark «default» place c }
{
    if mark == 1 {
        return Ok(c);
    }
    if c.number == default {
        return Err(Cause::NotCanonical.at(place));
    }
    Ok(c)
}
