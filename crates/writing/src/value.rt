// The writers of values. "A SEQUENCE, a SEQUENCE OF and a CHOICE may each hold the other two" (document 01): each opens its group and
// calls the loop over a group's members, `write_members`, which comes back to them through `write_row`. The row number falls at each
// descent. Each function of this cycle but the loop has one caller, so that the compiler puts it into the loop, where a value without
// components is written without a call.
ghost use Rattle.std.specs.Prelude.{◌≡◌, true, suc, ◌+◌, ◌*◌, ◌/◌, ◌<◌, ◌≤◌, length, replicate};
ghost use Rattle.std.proofs.lemmas.List.Edits.{sets};
ghost use Rattle.x696.specs.Value.{node_width};
ghost use Rattle.x696.specs.Bits.{bit_octets};
ghost use Rattle.x696.specs.Types.{mark_count};
ghost use Rattle.x696.specs.Encode.{encode, own_octets};
ghost use Rattle.x696.specs.Walk.{walk, walk_component};
ghost use Rattle.x696.specs.Table.{row_width, row_kind, component_default, type_of};
ghost use Rattle.x696.specs.TableCheck.{default_sound};
ghost use Rattle.pens.specs.Put.{Put, listed_at, walk_behind, node_octets};
ghost use Rattle.reading.specs.Members.{Members, Member};
ghost use Rattle.writing.specs.Members.{members, PutAll};
ghost use Rattle.writing.specs.Noted.{Notes};

use crate::parts::{is_missing, member_missing, note_presence};
use octets::faults::{Cause, Fault};
use octets::nodes::{node_kind, node_number};
use octets::presence::put_zeros;
use octets::tags::put_tag;
use octets::units::Occurrences;
use octets::variable::put_quantity;
use pens::leaf::write_leaf;
use pens::pen::Pen;
use reading::parts::{bit_of, count_marked, member_mark, member_row};
use table::component::ComponentType;
use table::kind::Kind;
use table::sound::Table;

// A value of a row at node `at`, with `used` contents octets before it; its octets go to `to`: a member alone.
pub fn write_value(
    table: &Table,
    row: usize,
    nodes: &[u64],
    contents: &[u8],
    at: usize,
    used: usize,
    to: usize,
    out: &mut [u8],
) -> Result<Pen, Fault>
    requires { (row < length table.now.rows.now / row_width) × (length nodes.now ≤ 8192) × (at * node_width ≤ length nodes.now) × (used ≤ length contents.now) × (length contents.now ≤ 65535) × (to ≤ 65536 + (at * node_octets + used)) }
    ensures { Put nodes.now contents.now (walk (type_of table.now.rows.now table.now.items.now row) (listed_at nodes.now contents.now at used)) (λ v. encode (type_of table.now.rows.now table.now.items.now row) v) at used to out.old out.new result }
{
    write_members(
        table,
        row + 1,
        row,
        false,
        0,
        1,
        nodes,
        contents,
        to,
        at,
        used,
        to,
        out,
    )
}

// n members of a group: listed, from item `first` on, with a preamble of zeros at `pre`, in which the presence bits are set; or n times
// a value of the row `inner`. A quantity is believed only as far as nodes go. Each is of a row below `above`.
#[cycle(writers)]
fn write_members(
    table: &Table,
    above: usize,
    inner: usize,
    listed: bool,
    first: usize,
    n: usize,
    nodes: &[u64],
    contents: &[u8],
    pre: usize,
    at: usize,
    used: usize,
    to: usize,
    out: &mut [u8],
) -> Result<Pen, Fault>
    requires { (above ≤ length table.now.rows.now / row_width) × Members table.now.rows.now table.now.items.now above inner listed first 0 n × (length nodes.now ≤ 8192) × (at * node_width ≤ length nodes.now) × (used ≤ length contents.now) × (length contents.now ≤ 65535) × (to ≤ 65536 + (at * node_octets + used)) × (to ≡ pre + (bit_octets (mark_count (members table.now.rows.now table.now.items.now inner listed first n)))) × (out.old ≡ sets out.old pre (replicate (bit_octets (mark_count (members table.now.rows.now table.now.items.now inner listed first n))) 0)) }
    ensures { PutAll nodes.now contents.now (members table.now.rows.now table.now.items.now inner listed first n) (listed_at nodes.now contents.now at used) pre at used to out.old out.new result }
{
    let mut pen = Pen { at, used, to };
    let mut b = 0;
    for i in 0..n {
        let mark = member_mark(table.items, listed, first + i);
        let row = member_row(table.items, inner, listed, first + i);
        pen = write_member(
            table,
            above,
            row,
            mark,
            first + i,
            nodes,
            contents,
            pre,
            b,
            pen.at,
            pen.used,
            pen.to,
            out,
        )?;
        b += bit_of(mark);
    }
    Ok(pen)
}

// One member, a component with presence bit b of the preamble at `pre`: its bit set and its octets, or neither where its node stands for
// what is not carried (31.9).
#[cycle(writers)]
fn write_member(
    table: &Table,
    above: usize,
    row: usize,
    mark: u64,
    i: usize,
    nodes: &[u64],
    contents: &[u8],
    pre: usize,
    b: usize,
    at: usize,
    used: usize,
    to: usize,
    out: &mut [u8],
) -> Result<Pen, Fault>
    requires { (above ≤ length table.now.rows.now / row_width) × Member table.now.rows.now table.now.items.now above row mark i b × (length nodes.now ≤ 8192) × (at * node_width ≤ length nodes.now) × (used ≤ length contents.now) × (length contents.now ≤ 65535) × (to ≤ 65536 + (at * node_octets + used)) × (pre ≤ to) }
    ensures { Notes nodes.now contents.now mark (component_default table.now.items.now i) (type_of table.now.rows.now table.now.items.now row) (listed_at nodes.now contents.now at used) pre b at used to out.old out.new result }
{
    if member_missing(table.rows, table.items, row, mark, i, nodes, at) {
        return Ok(Pen {
            at: at + 1,
            used,
            to,
        });
    }
    note_presence(out, pre, b, mark);
    write_row(table, row, nodes, contents, at, used, to, out)
}

// A value by its row's kind: its node (11), then what stands behind it.
#[cycle(writers)]
fn write_row(
    table: &Table,
    row: usize,
    nodes: &[u64],
    contents: &[u8],
    at: usize,
    used: usize,
    to: usize,
    out: &mut [u8],
) -> Result<Pen, Fault>
    requires { (row < length table.now.rows.now / row_width) × (length nodes.now ≤ 8192) × (at * node_width ≤ length nodes.now) × (used ≤ length contents.now) × (length contents.now ≤ 65535) × (to ≤ 65536 + (at * node_octets + used)) }
    ensures { Put nodes.now contents.now (walk (type_of table.now.rows.now table.now.items.now row) (listed_at nodes.now contents.now at used)) (λ v. encode (type_of table.now.rows.now table.now.items.now row) v) at used to out.old out.new result }
{
    if nodes.len() / 2 <= at {
        return Err(Cause::BadList.at(at));
    }
    let kind = table.row_kind(row);
    if node_kind(nodes, at) != kind.number() {
        return Err(Cause::BadList.at(at));
    }
    let number = node_number(nodes, at);
    match kind {
        Kind::Sequence => write_sequence(table, row, number, nodes, contents, at, used, to, out),
        Kind::SequenceOf => {
            write_sequence_of(table, row, number, nodes, contents, at, used, to, out)
        }
        Kind::Choice => write_choice(table, row, number, nodes, contents, at, used, to, out),
        _ => write_leaf(
            table.rows,
            table.items,
            row,
            number,
            contents,
            at,
            used,
            to,
            out,
        ),
    }
}

// Kind 10, behind its node: preamble, components (16.1).
#[cycle(writers)]
fn write_sequence(
    table: &Table,
    row: usize,
    number: u64,
    nodes: &[u64],
    contents: &[u8],
    at: usize,
    used: usize,
    to: usize,
    out: &mut [u8],
) -> Result<Pen, Fault>
    requires { (row < length table.now.rows.now / row_width) × (length nodes.now ≤ 8192) × (suc at * node_width ≤ length nodes.now) × (used ≤ length contents.now) × (length contents.now ≤ 65535) × (to ≤ 65536 + (at * node_octets + used)) × (row_kind table.now.rows.now row ≡ 10) }
    ensures { Put nodes.now contents.now (walk_behind (type_of table.now.rows.now table.now.items.now row) at number (listed_at nodes.now contents.now (suc at) used)) (λ v. encode (type_of table.now.rows.now table.now.items.now row) v) at used to out.old out.new result }
{
    let n = table.row_count(row);
    if number != n as u64 {
        return Err(Cause::BadList.at(at));
    }
    let first = table.row_first(row);
    // `div_ceil` would be five instructions in place of two
    let octets = (count_marked(table.items, first, n) + 7) / 8;
    put_zeros(out, to, octets);
    write_members(
        table,
        row,
        0,
        true,
        first,
        n,
        nodes,
        contents,
        to,
        at + 1,
        used,
        to + octets,
        out,
    )
}

// Kind 11, behind its node: quantity, occurrences (17.1).
#[cycle(writers)]
fn write_sequence_of(
    table: &Table,
    row: usize,
    number: u64,
    nodes: &[u64],
    contents: &[u8],
    at: usize,
    used: usize,
    to: usize,
    out: &mut [u8],
) -> Result<Pen, Fault>
    requires { (row < length table.now.rows.now / row_width) × (length nodes.now ≤ 8192) × (suc at * node_width ≤ length nodes.now) × (used ≤ length contents.now) × (length contents.now ≤ 65535) × (to ≤ 65536 + (at * node_octets + used)) × (row_kind table.now.rows.now row ≡ 11) }
    ensures { Put nodes.now contents.now (walk_behind (type_of table.now.rows.now table.now.items.now row) at number (listed_at nodes.now contents.now (suc at) used)) (λ v. encode (type_of table.now.rows.now table.now.items.now row) v) at used to out.old out.new result }
{
    let inner = table.component_row(table.row_first(row));
    let p = put_quantity(out, to, Occurrences(number));
    write_members(
        table,
        row,
        inner,
        false,
        0,
        number as usize,
        nodes,
        contents,
        p,
        at + 1,
        used,
        p,
        out,
    )
}

// Kind 12, behind its node: tag, the chosen alternative (20.1).
#[cycle(writers)]
fn write_choice(
    table: &Table,
    row: usize,
    number: u64,
    nodes: &[u64],
    contents: &[u8],
    at: usize,
    used: usize,
    to: usize,
    out: &mut [u8],
) -> Result<Pen, Fault>
    requires { (row < length table.now.rows.now / row_width) × (length nodes.now ≤ 8192) × (suc at * node_width ≤ length nodes.now) × (used ≤ length contents.now) × (length contents.now ≤ 65535) × (to ≤ 65536 + (at * node_octets + used)) × (row_kind table.now.rows.now row ≡ 12) }
    ensures { Put nodes.now contents.now (walk_behind (type_of table.now.rows.now table.now.items.now row) at number (listed_at nodes.now contents.now (suc at) used)) (λ v. encode (type_of table.now.rows.now table.now.items.now row) v) at used to out.old out.new result }
{
    if table.row_count(row) as u64 <= number {
        return Err(Cause::BadList.at(at));
    }
    let i = table.row_first(row) + number as usize;
    let p = put_tag(out, to, table.tag_class(i), table.tag_number(i));
    let inner = table.alternative_row(i);
    write_members(
        table,
        row,
        inner,
        false,
        0,
        1,
        nodes,
        contents,
        p,
        at + 1,
        used,
        p,
        out,
    )
}

// A component with its mark and default: a value of a row, or the node alone that stands for what is not carried.
pub fn write_component(
    table: &Table,
    component: ComponentType,
    nodes: &[u64],
    contents: &[u8],
    at: usize,
    used: usize,
    to: usize,
    out: &mut [u8],
) -> Result<Pen, Fault>
    requires { (component.row < length table.now.rows.now / row_width) × (length nodes.now ≤ 8192) × (at * node_width ≤ length nodes.now) × (used ≤ length contents.now) × (length contents.now ≤ 65535) × (to ≤ 65536 + (at * node_octets + used)) × ((1 < component.mark) → default_sound (type_of table.now.rows.now table.now.items.now component.row) component.given ≡ true) }
    ensures { Put nodes.now contents.now (walk_component component.mark (type_of table.now.rows.now table.now.items.now component.row) (listed_at nodes.now contents.now at used)) (λ v. own_octets component.mark component.given (type_of table.now.rows.now table.now.items.now component.row) v) at used to out.old out.new result }
{
    if component.mark == 0 {
        return write_value(table, component.row, nodes, contents, at, used, to, out);
    }
    if is_missing(
        nodes,
        at,
        table.row_kind(component.row).number(),
        component.mark,
        component.given,
    ) {
        return Ok(Pen {
            at: at + 1,
            used,
            to,
        });
    }
    write_value(table, component.row, nodes, contents, at, used, to, out)
}
