// The check of a table (document 01, numbers 1 and 2), and the public operation.
ghost use Rattle.std.specs.Prelude.{◌≡◌};
ghost use Rattle.x696.specs.TableFault.{sizes_sound, table_fault};
ghost use Rattle.x696.specs.Operations.{check as checked};
ghost use Rattle.table.specs.Replies.{as_reply};
ghost use Rattle.table.specs.Judged.{as_fault, table_refusal};

use crate::nestings::judge_rows;
use crate::reply::{Reply, done};
use crate::words::{items_in, rows_in};
use octets::faults::{Cause, Part, Refusal};

// Why a table is refused.
#[derive(Clone, Copy, Debug, PartialEq, Eq)]
pub enum TableFault {
    Size,
    Row(usize),
}

impl From<TableFault> for Refusal {
    ghost from_gives = { λ f r. r ≡ table_refusal f };

    fn from(fault: TableFault) -> Self {
        match fault {
            TableFault::Size => Cause::TableSize.at(0).in_part(Part::Table),
            TableFault::Row(row) => Cause::TableRow.at(row).in_part(Part::Table),
        }
    }
}

// Whole rows, 1 to 256; whole items, 0 to 1,024.
#[tactic(auto, unfolding(x696::specs::TableFault::sizes_sound, x696::specs::TableCheck::given, x696::specs::Outcome::choose))]
fn sizes_sound(rows: &[u64], items: &[u64]) -> bool
    ensures { result ≡ sizes_sound rows.now items.now }
{
    rows.len() % 6 == 0
        && rows_in(rows) != 0
        && rows_in(rows) <= 256
        && items.len() % 3 == 0
        && items_in(items) <= 1024
}

// The first fault of a table: its sizes, then its first bad row.
#[tactic(auto, unfolding(crate::specs::Judged::as_fault, x696::specs::TableFault::table_fault, x696::specs::TableFault::sizes_sound, x696::specs::TableCheck::given, x696::specs::Outcome::choose))]
pub fn judge(rows: &[u64], items: &[u64]) -> Result<(), TableFault>
    ensures { result ≡ as_fault (table_fault rows.now items.now) }
{
    if !sizes_sound(rows, items) {
        return Err(TableFault::Size);
    }
    let mut nestings = [0u8; 256];
    match judge_rows(rows, items, rows_in(rows), &mut nestings) {
        Ok(()) => Ok(()),
        Err(row) => Err(TableFault::Row(row)),
    }
}

// Check a table: 1 TABLE SIZE, 2 TABLE ROW at the first row that breaks a rule, or 0. It asks nothing of its caller.
// Ruled out, for instance: a check that refuses every table, and one that names a later bad row.
#[tactic(auto, unfolding(crate::specs::Judged::as_fault, x696::specs::Operations::check, x696::specs::Operations::check_reply))]
pub fn check(rows: &[u64], items: &[u64]) -> Reply
    ensures { result ≡ as_reply (checked rows.now items.now) }
{
    match judge(rows, items) {
        Ok(()) => done(0, 0),
        Err(fault) => Reply::from(Refusal::from(fault)),
    }
}
