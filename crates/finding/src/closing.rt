// What stands behind the step's own component in its group.
ghost use Rattle.std.specs.Prelude.{ℕ, ◌+◌, ◌/◌, ◌<◌, ◌≤◌, ◌≡◌, length, drop};
ghost use Rattle.x696.specs.Read.{message};
ghost use Rattle.x696.specs.Table.{row_width};
ghost use Rattle.finding.specs.Passing.{Passed, none};
ghost use Rattle.finding.specs.Leading.{behind_of, BehindFits};

use crate::passing::{pass_components, pass_elements};
use crate::spot::Opening;
use kinds::cursor::Cursor;
use octets::faults::Fault;
use table::kind::Kind;
use table::sound::Table;

// What stands behind the child in its group, whose own octets begin at `pre`.
pub fn pass_behind(
    table: &Table,
    row: usize,
    o: Opening,
    msg: &[u8],
    pre: usize,
    at: usize,
    count: usize,
) -> Result<Cursor, Fault>
    requires { (row < length table.now.rows.now / row_width) × (at ≤ length msg.now) × (length msg.now ≤ 65535) × (pre ≤ length msg.now) × (o.component.row < row) × BehindFits table.now.rows.now table.now.items.now row o }
    ensures { Passed none msg.now (behind_of table.now.rows.now table.now.items.now msg.now row pre o (message (drop at msg.now) count)) result }
{
    match table.row_kind(row) {
        Kind::Sequence => pass_components(
            table,
            row,
            o.after,
            o.left as usize,
            msg,
            pre,
            o.later,
            at,
            count,
        ),
        _ => pass_elements(table, o.component.row, o.left, msg, at, count),
    }
}
