// The readers of values. "A SEQUENCE, a SEQUENCE OF and a CHOICE may each hold the other two" (document 01): each opens
// its group and calls the loop over a group's members, `read_members`, which comes back to them through `read_row`. The
// row number falls at each descent. Each function of this cycle but the loop has one caller, so that the compiler puts
// it into the loop, where kinds 1 to 6 are read without a call.
ghost use Rattle.std.specs.Prelude.{◌≡◌, ℕ, ◌/◌, ◌<◌, ◌≤◌, length, drop};
ghost use Rattle.x696.specs.Read.{message, read};
ghost use Rattle.x696.specs.Operations.{node_limit};
ghost use Rattle.x696.specs.Table.{row_width, row_kind, type_of};
ghost use Rattle.kinds.specs.Run.{Ran, inside_at};
ghost use Rattle.reading.specs.Members.{member_at, members, Member, Members, RanAll};

use crate::parts::{
    bit_of, count_marked, is_default, is_missing, is_padded, member_mark, member_row, missing_kind,
    read_missing,
};
use crate::tags::find_tag;
use kinds::cursor::Cursor;
use kinds::leaf::{read_scalar, read_string};
use octets::faults::{Cause, Fault};
use octets::nodes::put_node;
use octets::tags::read_tag;
use octets::variable::read_quantity;
use table::kind::Kind;
use table::sound::Table;

// A value of a row at octet `at`, with `count` nodes and `used` contents octets before it: a member alone.
pub fn read_value(
    table: &Table,
    row: usize,
    msg: &[u8],
    at: usize,
    count: usize,
    used: usize,
    nodes: &mut [u64],
    contents: &mut [u8],
) -> Result<Cursor, Fault>
    requires { (row < length table.now.rows.now / row_width) × (at ≤ length msg.now) × (used ≤ at) × (length msg.now ≤ 65535) }
    ensures { Ran msg.now (read node_limit (type_of table.now.rows.now table.now.items.now row) (length msg.now) (message (drop at msg.now) count)) at count used nodes.old contents.old nodes.new contents.new result }
{
    read_members(
        table,
        row + 1,
        row,
        false,
        0,
        1,
        msg,
        at,
        0,
        at,
        count,
        used,
        nodes,
        contents,
    )
}

// n members of a group: listed, from item `first` on, whose presence bits begin with bit `bit` of the preamble at `pre`, or
// n times a value of the row `inner`. Each is of a row below `above`. A quantity is believed only as far as its members
// are read.
#[cycle(readers)]
pub fn read_members(
    table: &Table,
    above: usize,
    inner: usize,
    listed: bool,
    first: usize,
    n: usize,
    msg: &[u8],
    pre: usize,
    bit: usize,
    at: usize,
    count: usize,
    used: usize,
    nodes: &mut [u64],
    contents: &mut [u8],
) -> Result<Cursor, Fault>
    requires { (above ≤ length table.now.rows.now / row_width) × Members table.now.rows.now table.now.items.now above inner listed first bit n × (pre ≤ length msg.now) × (at ≤ length msg.now) × (used ≤ at) × (length msg.now ≤ 65535) }
    ensures { RanAll msg.now (members table.now.rows.now table.now.items.now msg.now inner listed pre n first bit (message (drop at msg.now) count)) at count used nodes.old contents.old nodes.new contents.new result }
{
    let mut reached = Cursor {
        at,
        count,
        used,
        number: 0,
    };
    let mut b = bit;
    for i in 0..n {
        let mark = member_mark(table.items, listed, first + i);
        let row = member_row(table.items, inner, listed, first + i);
        reached = read_member(
            table,
            above,
            row,
            mark,
            first + i,
            msg,
            pre,
            b,
            reached.at,
            reached.count,
            reached.used,
            nodes,
            contents,
        )?;
        b += bit_of(mark);
    }
    Ok(reached)
}

// One member: a component with presence bit b of the preamble at `pre`, its value or the node that stands for it.
#[cycle(readers)]
fn read_member(
    table: &Table,
    above: usize,
    row: usize,
    mark: u64,
    i: usize,
    msg: &[u8],
    pre: usize,
    b: usize,
    at: usize,
    count: usize,
    used: usize,
    nodes: &mut [u64],
    contents: &mut [u8],
) -> Result<Cursor, Fault>
    requires { (above ≤ length table.now.rows.now / row_width) × Member table.now.rows.now table.now.items.now above row mark i b × (pre ≤ length msg.now) × (at ≤ length msg.now) × (used ≤ at) × (length msg.now ≤ 65535) }
    ensures { Ran msg.now (member_at table.now.rows.now table.now.items.now msg.now mark i row pre b (message (drop at msg.now) count)) at count used nodes.old contents.old nodes.new contents.new result }
{
    if is_missing(msg, pre, b, mark) {
        let kind = missing_kind(table.rows, row, mark);
        return read_missing(
            kind,
            table.component_default(i),
            msg,
            at,
            count,
            used,
            nodes,
        );
    }
    let d = read_row(table, row, msg, at, count, used, nodes, contents)?;
    // a component equal to its DEFAULT is absent (31.9)
    if is_default(table.items, i, mark, d.number) {
        return Err(Cause::NotCanonical.at(at));
    }
    // made anew, so that it stays in registers
    Ok(Cursor {
        at: d.at,
        count: d.count,
        used: d.used,
        number: d.number,
    })
}

// A value by its row's kind.
#[cycle(readers)]
fn read_row(
    table: &Table,
    row: usize,
    msg: &[u8],
    at: usize,
    count: usize,
    used: usize,
    nodes: &mut [u64],
    contents: &mut [u8],
) -> Result<Cursor, Fault>
    requires { (row < length table.now.rows.now / row_width) × (at ≤ length msg.now) × (used ≤ at) × (length msg.now ≤ 65535) }
    ensures { Ran msg.now (read node_limit (type_of table.now.rows.now table.now.items.now row) (length msg.now) (message (drop at msg.now) count)) at count used nodes.old contents.old nodes.new contents.new result }
{
    // a node is counted before any octet of its value is looked at
    if 4096 <= count {
        return Err(Cause::Nodes.at(at));
    }
    let kind = table.row_kind(row);
    match kind {
        Kind::Boolean
        | Kind::Integer
        | Kind::Enumerated
        | Kind::Single
        | Kind::Double
        | Kind::Null => {
            let x = read_scalar(table.rows, table.items, row, msg, at)?;
            put_node(nodes, count, kind.number(), x.value);
            Ok(Cursor {
                at: x.next,
                count: count + 1,
                used,
                number: x.value,
            })
        }
        Kind::OctetString | Kind::BitString | Kind::VisibleString => read_string(
            table.rows,
            table.items,
            row,
            msg,
            at,
            count,
            used,
            nodes,
            contents,
        ),
        Kind::Sequence => read_sequence(table, row, msg, at, count, used, nodes, contents),
        Kind::SequenceOf => read_sequence_of(table, row, msg, at, count, used, nodes, contents),
        Kind::Choice => read_choice(table, row, msg, at, count, used, nodes, contents),
    }
}

// Kind 10: preamble, components (16.1).
#[cycle(readers)]
fn read_sequence(
    table: &Table,
    row: usize,
    msg: &[u8],
    at: usize,
    count: usize,
    used: usize,
    nodes: &mut [u64],
    contents: &mut [u8],
) -> Result<Cursor, Fault>
    requires { (row < length table.now.rows.now / row_width) × (at ≤ length msg.now) × (used ≤ at) × (count < 4096) × (row_kind table.now.rows.now row ≡ 10) × (length msg.now ≤ 65535) }
    ensures { Ran msg.now (inside_at (type_of table.now.rows.now table.now.items.now row) msg.now at count) at count used nodes.old contents.old nodes.new contents.new result }
{
    let first = table.row_first(row);
    let n = table.row_count(row);
    put_node(nodes, count, Kind::Sequence.number(), n as u64);
    let bits = count_marked(table.items, first, n);
    // `div_ceil` would be five instructions in place of two, here and below
    if msg.len() - at < (bits + 7) / 8 {
        return Err(Cause::Short.at(at));
    }
    // the unused bits are 0 (16.2.4)
    if !is_padded(msg, at, bits) {
        return Err(Cause::NotCanonical.at(at));
    }
    let d = read_members(
        table,
        row,
        0,
        true,
        first,
        n,
        msg,
        at,
        0,
        at + (bits + 7) / 8,
        count + 1,
        used,
        nodes,
        contents,
    )?;
    Ok(Cursor {
        number: n as u64,
        ..d
    })
}

// Kind 11: quantity, occurrences (17.1).
#[cycle(readers)]
fn read_sequence_of(
    table: &Table,
    row: usize,
    msg: &[u8],
    at: usize,
    count: usize,
    used: usize,
    nodes: &mut [u64],
    contents: &mut [u8],
) -> Result<Cursor, Fault>
    requires { (row < length table.now.rows.now / row_width) × (at ≤ length msg.now) × (used ≤ at) × (count < 4096) × (row_kind table.now.rows.now row ≡ 11) × (length msg.now ≤ 65535) }
    ensures { Ran msg.now (inside_at (type_of table.now.rows.now table.now.items.now row) msg.now at count) at count used nodes.old contents.old nodes.new contents.new result }
{
    let inner = table.component_row(table.row_first(row));
    let q = read_quantity(msg, at, at)?;
    let n = q.many.0;
    put_node(nodes, count, Kind::SequenceOf.number(), n);
    let d = read_members(
        table,
        row,
        inner,
        false,
        0,
        n as usize,
        msg,
        at,
        0,
        q.next,
        count + 1,
        used,
        nodes,
        contents,
    )?;
    Ok(Cursor { number: n, ..d })
}

// Kind 12: tag, the chosen alternative (20.1).
#[cycle(readers)]
fn read_choice(
    table: &Table,
    row: usize,
    msg: &[u8],
    at: usize,
    count: usize,
    used: usize,
    nodes: &mut [u64],
    contents: &mut [u8],
) -> Result<Cursor, Fault>
    requires { (row < length table.now.rows.now / row_width) × (at ≤ length msg.now) × (used ≤ at) × (count < 4096) × (row_kind table.now.rows.now row ≡ 12) × (length msg.now ≤ 65535) }
    ensures { Ran msg.now (inside_at (type_of table.now.rows.now table.now.items.now row) msg.now at count) at count used nodes.old contents.old nodes.new contents.new result }
{
    let first = table.row_first(row);
    let n = table.row_count(row);
    let g = read_tag(msg, at, at)?;
    // a tag of the type
    let Some(k) = find_tag(table.items, first, n, g.class, g.number) else {
        return Err(Cause::NotAllowed.at(at));
    };
    put_node(nodes, count, Kind::Choice.number(), k as u64);
    let d = read_members(
        table,
        row,
        table.alternative_row(first + k),
        false,
        0,
        1,
        msg,
        at,
        0,
        g.next,
        count + 1,
        used,
        nodes,
        contents,
    )?;
    Ok(Cursor {
        number: k as u64,
        ..d
    })
}
