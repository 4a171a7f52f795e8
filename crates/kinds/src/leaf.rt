// A value of a row without components, its node counted: by the row's kind.
ghost use Rattle.std.specs.Prelude.{◌≡◌, true, ℕ, ◌/◌, ◌<◌, ◌≤◌, length};
ghost use Rattle.x696.specs.Table.{row_width, row_kind, type_of};
ghost use Rattle.x696.specs.TableFault.{row_sound};
ghost use Rattle.kinds.specs.Run.{ScalarAnswer, Ran, inside_at};

use crate::bits::read_bits;
use crate::cursor::Cursor;
use crate::integer::read_integer;
use crate::listed::read_listed;
use crate::plain::read_boolean;
use crate::real::{Double, Single, read_real};
use crate::text::read_text;
use octets::answers::Number;
use octets::faults::{Cause, Fault};
use table::kind::Kind;
use table::words::{known_kind, row_bounds, row_count, row_first};

// Kinds 1 to 6: a number, and where the next octet stands. The caller stores the node.
pub fn read_scalar(
    rows: &[u64],
    items: &[u64],
    row: usize,
    msg: &[u8],
    at: usize,
) -> Result<Number, Fault>
    requires { (row < length rows.now / row_width) × (row_sound rows.now items.now row ≡ true) × (row_kind rows.now row < 7) × (at ≤ length msg.now) }
    ensures { (count : ℕ) → ScalarAnswer msg.now (inside_at (type_of rows.now items.now row) msg.now at count) (row_kind rows.now row) at count result }
{
    match known_kind(rows, row) {
        Kind::Boolean => read_boolean(msg, at),
        Kind::Integer => read_integer(row_bounds(rows, row), msg, at),
        Kind::Enumerated => read_listed(
            items,
            row_first(rows, row) as usize,
            row_count(rows, row) as usize,
            msg,
            at,
        ),
        Kind::Single => read_real::<Single>(msg, at),
        Kind::Double => read_real::<Double>(msg, at),
        // NULL, the only other one: no octets (15)
        _ => Ok(Number { value: 0, next: at }),
    }
}

// Kinds 7 to 9: the node and the contents are stored.
pub fn read_string(
    rows: &[u64],
    items: &[u64],
    row: usize,
    msg: &[u8],
    at: usize,
    count: usize,
    used: usize,
    nodes: &mut [u64],
    contents: &mut [u8],
) -> Result<Cursor, Fault>
    requires { (row < length rows.now / row_width) × (6 < row_kind rows.now row) × (row_kind rows.now row < 10) × (count < 4096) × (at ≤ length msg.now) × (used ≤ at) × (length msg.now ≤ 65535) }
    ensures { Ran msg.now (inside_at (type_of rows.now items.now row) msg.now at count) at count used nodes.old contents.old nodes.new contents.new result }
{
    let bounds = row_bounds(rows, row);
    let kind = known_kind(rows, row);
    match kind {
        Kind::BitString => read_bits(bounds, msg, at, count, used, nodes, contents),
        // The other two by one call, which the compiler puts into the readers' loop: with a call for each, reading strings costs a
        // third to two thirds as much again.
        _ => read_text(
            kind == Kind::VisibleString,
            bounds,
            msg,
            at,
            count,
            used,
            nodes,
            contents,
        ),
    }
}
