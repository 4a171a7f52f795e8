// "A function works out a row's nesting from its items' smaller rows, the row number falling" (document 01): each row once, so that
// rows which share rows cost no more than rows times items.
ghost use Rattle.std.specs.Prelude.{◌≡◌, true, ℕ, ◌+◌, ◌*◌, ◌/◌, ◌<◌, ◌≤◌, [], length, get_or, IfOk, IfErr};
ghost use Rattle.x696.specs.Table.{row_width, item_width, item_word};
ghost use Rattle.x696.specs.TableCheck.{greatest};
ghost use Rattle.x696.specs.TableFault.{bad_row, row_sound, row_nesting, rows_fault};
ghost use Rattle.table.specs.Judged.{judged_row, SoundRows};
ghost use Rattle.table.specs.Orders.{SoundBelow};

use crate::groups::{choice_sound, sequence_of_sound, sequence_sound};
use crate::kind::Kind;
use crate::rules::{enumerated_sound, integer_sound, no_bounds, no_range, string_sound};
use crate::words::{
    ALTERNATIVE_ROW, COMPONENT_ROW, item_word, known_kind, row_count, row_first, row_kind,
};

// The rules of a row but for its nesting, where the smaller rows keep theirs.
#[tactic(auto, unfolding(x696::specs::TableFault::row_sound, x696::specs::TableCheck::given, x696::specs::Outcome::choose))]
fn row_sound(rows: &[u64], items: &[u64], row: usize) -> bool
    requires { (row < length rows.now / row_width) × SoundBelow rows.now items.now row }
    ensures { result ≡ row_sound rows.now items.now row }
{
    match Kind::try_from(row_kind(rows, row)) {
        Ok(Kind::Boolean | Kind::Single | Kind::Double | Kind::Null) => {
            no_bounds(rows, items, row) && no_range(rows, items, row)
        }
        Ok(Kind::Integer) => integer_sound(rows, items, row),
        Ok(Kind::Enumerated) => enumerated_sound(rows, items, row),
        Ok(Kind::OctetString | Kind::BitString | Kind::VisibleString) => {
            string_sound(rows, items, row)
        }
        Ok(Kind::Sequence) => sequence_sound(rows, items, row),
        Ok(Kind::SequenceOf) => sequence_of_sound(rows, items, row),
        Ok(Kind::Choice) => choice_sound(rows, items, row),
        Err(_unknown) => false,
    }
}

// The greatest nesting among the rows that n items name in word j.
fn greatest_nesting(items: &[u64], first: usize, n: usize, j: usize, nestings: &[u8; 256]) -> u8
    requires { (j < item_width) × (first + n ≤ length items.now / item_width) × ((i : ℕ) → first ≤ i → i < first + n → item_word items.now i j < 256) }
    ensures { result ≡ greatest (λ i. get_or nestings.now (item_word items.now i j) 0) first n }
{
    (first..first + n)
        .map(|i| nestings[item_word(items, i, j) as usize])
        .max()
        .unwrap_or(0)
}

// 1 for a kind without components, else one more than the greatest among its items' rows.
#[tactic(auto, unfolding(x696::specs::TableFault::row_nesting, x696::specs::Outcome::choose))]
fn row_nesting(rows: &[u64], items: &[u64], row: usize, nestings: &[u8; 256]) -> u64
    requires { (row < length rows.now / row_width) × (row < 256) × (row_sound rows.now items.now row ≡ true) }
    ensures { result ≡ row_nesting rows.now items.now nestings.now row }
{
    let first = row_first(rows, row) as usize;
    let n = row_count(rows, row) as usize;
    match known_kind(rows, row) {
        Kind::Sequence | Kind::SequenceOf => {
            u64::from(greatest_nesting(items, first, n, COMPONENT_ROW, nestings)) + 1
        }
        Kind::Choice => u64::from(greatest_nesting(items, first, n, ALTERNATIVE_ROW, nestings)) + 1,
        _ => 1,
    }
}

// The nesting of row `row`, where the rows before it are sound and have these nestings; none if it breaks a rule.
#[tactic(auto, unfolding(x696::specs::TableCheck::given, x696::specs::Outcome::choose))]
fn judge_row(rows: &[u64], items: &[u64], row: usize, nestings: &[u8; 256]) -> Option<u8>
    requires { (row < length rows.now / row_width) × (row < 256) × SoundBelow rows.now items.now row }
    ensures { result ≡ judged_row rows.now items.now nestings.now row }
{
    if !row_sound(rows, items, row) {
        return None;
    }
    let deep = row_nesting(rows, items, row, nestings);
    let too_deep = 16 < deep;
    if too_deep { None } else { Some(deep as u8) }
}

// The first n rows judged, each once: their nestings are stored, or the first bad row is named. Not a `for` over 0..n: document 01
// names the form, a function with the row number falling.
pub fn judge_rows(
    rows: &[u64],
    items: &[u64],
    n: usize,
    nestings: &mut [u8; 256],
) -> Result<(), usize>
    requires { (n ≤ length rows.now / row_width) × (n ≤ 256) × (length nestings.old ≡ 256) }
    ensures ok { IfOk result (λ _. SoundRows rows.now items.now n nestings.new) }
    ensures err { IfErr result (λ row. rows_fault rows.now items.now 0 n [] ≡ bad_row row) }
{
    if n == 0 {
        return Ok(());
    }
    let row = n - 1;
    judge_rows(rows, items, row, nestings)?;
    nestings[row] = judge_row(rows, items, row, nestings).ok_or(row)?;
    Ok(())
}
