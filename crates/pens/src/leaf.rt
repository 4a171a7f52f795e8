// A value of a row without components, behind its node: by the row's kind.
ghost use Rattle.std.specs.Prelude.{◌≡◌, true, List, ℕ, suc, ◌+◌, ◌*◌, ◌/◌, ◌^◌, ◌<◌, ◌≤◌, length};
ghost use Rattle.x696.specs.Value.{node_width};
ghost use Rattle.x696.specs.Encode.{encode};
ghost use Rattle.x696.specs.Table.{row_width, row_kind, type_of};
ghost use Rattle.x696.specs.TableFault.{row_sound};
ghost use Rattle.table.specs.Kind.{code_of};
ghost use Rattle.pens.specs.Put.{Put, listed_at, walk_behind, node_octets};
ghost use Rattle.pens.specs.Flat.{RowNumbered, RowHeaded};

use crate::bits::begin_bits;
use crate::head::Head;
use crate::integer::write_integer;
use crate::listed::write_listed;
use crate::pen::Pen;
use crate::plain::{write_boolean, write_null};
use crate::real::write_real;
use crate::text::begin_text;
use kinds::real::{Double, Single};
use octets::faults::{Cause, Fault};
use octets::words::copy;
use table::kind::Kind;
use table::words::{known_kind, row_bounds, row_count, row_first};

// A number: kinds 1 to 6, which have no contents.
fn write_number(
    rows: &[u64],
    items: &[u64],
    row: usize,
    kind: Kind,
    n: u64,
    to: usize,
    out: &mut [u8],
) -> Result<usize, Cause>
    requires { (row < length rows.now / row_width) × (row_sound rows.now items.now row ≡ true) × (code_of kind ≡ row_kind rows.now row) × (code_of kind < 7) × (to < 2 ^ 40) }
    ensures { RowNumbered (type_of rows.now items.now row) n to out.old out.new result }
{
    match kind {
        Kind::Boolean => write_boolean(n, to, out),
        Kind::Integer => write_integer(row_bounds(rows, row), n, to, out),
        Kind::Enumerated => write_listed(
            items,
            row_first(rows, row) as usize,
            row_count(rows, row) as usize,
            n,
            to,
            out,
        ),
        Kind::Single => write_real::<Single>(n, to, out),
        Kind::Double => write_real::<Double>(n, to, out),
        // NULL, the only other one
        _ => write_null(n, to),
    }
}

// What stands before a string's contents: kinds 7 to 9.
fn begin_string(
    rows: &[u64],
    items: &[u64],
    row: usize,
    kind: Kind,
    n: u64,
    contents: &[u8],
    used: usize,
    to: usize,
    out: &mut [u8],
) -> Result<Head, Cause>
    requires { (row < length rows.now / row_width) × (code_of kind ≡ row_kind rows.now row) × (7 ≤ code_of kind) × (code_of kind < 10) × (used ≤ length contents.now) × (length contents.now ≤ 65535) × (to < 2 ^ 40) }
    ensures { RowHeaded (type_of rows.now items.now row) contents.now n used to out.old out.new result }
{
    let bounds = row_bounds(rows, row);
    match kind {
        Kind::BitString => begin_bits(bounds, n, contents, used, to, out),
        _ => begin_text(
            kind == Kind::VisibleString,
            bounds,
            n,
            contents,
            used,
            to,
            out,
        ),
    }
}

// The octets of a value of kinds 1 to 9, behind its node `at` of that kind, which has this number.
pub fn write_leaf(
    rows: &[u64],
    items: &[u64],
    row: usize,
    number: u64,
    contents: &[u8],
    at: usize,
    used: usize,
    to: usize,
    out: &mut [u8],
) -> Result<Pen, Fault>
    requires { (row < length rows.now / row_width) × (row_sound rows.now items.now row ≡ true) × (row_kind rows.now row < 10) × (at < 4096) × (used ≤ length contents.now) × (length contents.now ≤ 65535) × (to ≤ 65536 + (at * node_octets + used)) }
    ensures { (ws : List ℕ) → suc at * node_width ≤ length ws → Put ws contents.now (walk_behind (type_of rows.now items.now row) at number (listed_at ws contents.now (suc at) used)) (λ v. encode (type_of rows.now items.now row) v) at used to out.old out.new result }
{
    let kind = known_kind(rows, row);
    // a fault is placed at the node
    match kind {
        Kind::OctetString | Kind::BitString | Kind::VisibleString => {
            match begin_string(rows, items, row, kind, number, contents, used, to, out) {
                Ok(head) => {
                    copy(contents, used, head.filled, out, head.to);
                    Ok(Pen {
                        at: at + 1,
                        used: used + head.filled,
                        to: head.to + head.filled,
                    })
                }
                Err(fault) => Err(fault.at(at)),
            }
        }
        _ => match write_number(rows, items, row, kind, number, to, out) {
            Ok(next) => Ok(Pen {
                at: at + 1,
                used,
                to: next,
            }),
            Err(cause) => Err(cause.at(at)),
        },
    }
}
