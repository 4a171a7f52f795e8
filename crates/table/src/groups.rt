// The rules of a SEQUENCE, a SEQUENCE OF and a CHOICE (document 01, "The type table").
ghost use Rattle.std.specs.Prelude.{◌≡◌, true, ℕ, ◌+◌, ◌*◌, ◌/◌, ◌<◌, ◌≤◌, length};
ghost use Rattle.x696.specs.Table.{row_width, item_width, type_of};
ghost use Rattle.x696.specs.TableCheck.{every, ascending, default_sound, component_sound, sequence_sound, sequence_of_sound};
ghost use Rattle.x696.specs.TableCheck.{alternative_sound, tag_before, choice_sound};
ghost use Rattle.x696.specs.TableFault.{row_sound};
ghost use Rattle.table.specs.Orders.{SoundBelow};

use crate::kind::Kind;
use crate::numbers::is_listed;
use crate::rules::{no_bounds, range_inside, rest_zero};
use crate::words::{
    alternative_row, component_default, component_mark, component_row, known_kind, row_bounds,
    row_count, row_first, tag_class, tag_number,
};

// Whether d is a DEFAULT of row k: kinds 1, 2 and 3 (an allowed value) and 11 (0, the empty list).
#[tactic(auto, using(x696::proofs::TableLaws::type_of_row), unfolding(x696::specs::TableCheck::default_sound, x696::specs::Table::type_by, x696::specs::Outcome::choose))]
fn default_sound(rows: &[u64], items: &[u64], k: usize, d: u64) -> bool
    requires { (k < length rows.now / row_width) × (row_sound rows.now items.now k ≡ true) }
    ensures { result ≡ default_sound (type_of rows.now items.now k) d }
{
    match known_kind(rows, k) {
        Kind::Boolean => d < 2,
        Kind::Integer => row_bounds(rows, k).allows(d),
        Kind::Enumerated => is_listed(
            items,
            row_first(rows, k) as usize,
            row_count(rows, k) as usize,
            d,
        ),
        Kind::SequenceOf => d == 0,
        _ => false,
    }
}

// An item of a SEQUENCE in row `row`.
#[tactic(auto, unfolding(x696::specs::TableCheck::component_sound, x696::specs::TableCheck::given, x696::specs::Outcome::choose))]
fn component_sound(rows: &[u64], items: &[u64], row: usize, i: usize) -> bool
    requires { (row < length rows.now / row_width) × (i < length items.now / item_width) × SoundBelow rows.now items.now row }
    ensures { result ≡ component_sound rows.now items.now row i }
{
    let k = component_row(items, i);
    if row as u64 <= k {
        return false;
    }
    let d = component_default(items, i);
    match component_mark(items, i) {
        0 | 1 => d == 0,
        2 => default_sound(rows, items, k as usize, d),
        _ => false,
    }
}

// Kind 10.
#[tactic(auto, unfolding(x696::specs::TableCheck::range_inside, x696::specs::TableCheck::sequence_sound, x696::specs::TableCheck::given, x696::specs::Outcome::choose))]
pub fn sequence_sound(rows: &[u64], items: &[u64], row: usize) -> bool
    requires { (row < length rows.now / row_width) × SoundBelow rows.now items.now row }
    ensures { result ≡ sequence_sound rows.now items.now row }
{
    if !no_bounds(rows, items, row) || !range_inside(rows, items, row) {
        return false;
    }
    let first = row_first(rows, row) as usize;
    let n = row_count(rows, row) as usize;
    (first..first + n).all(|i| component_sound(rows, items, row, i))
}

// Kind 11.
#[tactic(auto, unfolding(x696::specs::TableCheck::range_inside, x696::specs::TableCheck::sequence_of_sound, x696::specs::TableCheck::given, x696::specs::Outcome::choose))]
pub fn sequence_of_sound(rows: &[u64], items: &[u64], row: usize) -> bool
    requires { row < length rows.now / row_width }
    ensures { result ≡ sequence_of_sound rows.now items.now row }
{
    if !no_bounds(rows, items, row)
        || row_count(rows, row) != 1
        || !range_inside(rows, items, row)
    {
        return false;
    }
    let first = row_first(rows, row) as usize;
    rest_zero(items, first) && component_row(items, first) < row as u64
}

// An item of a CHOICE in row `row`.
#[tactic(auto, unfolding(x696::specs::TableCheck::alternative_sound, x696::specs::TableCheck::given, x696::specs::Outcome::choose))]
fn alternative_sound(rows: &[u64], items: &[u64], row: usize, i: usize) -> bool
    requires { i < length items.now / item_width }
    ensures { result ≡ alternative_sound rows.now items.now row i }
{
    tag_class(items, i) < 4
        && tag_number(items, i) <= 2097151
        && alternative_row(items, i) < row as u64
}

// By class, then number.
#[tactic(auto, unfolding(x696::specs::TableCheck::tag_before))]
fn tag_before(items: &[u64], i: usize, j: usize) -> bool
    requires { (i < length items.now / item_width) × (j < length items.now / item_width) }
    ensures { result ≡ tag_before items.now i j }
{
    (tag_class(items, i), tag_number(items, i)) < (tag_class(items, j), tag_number(items, j))
}

// Kind 12.
#[tactic(auto, unfolding(x696::specs::TableCheck::range_inside, x696::specs::TableCheck::choice_sound, x696::specs::TableCheck::given, x696::specs::Outcome::choose))]
pub fn choice_sound(rows: &[u64], items: &[u64], row: usize) -> bool
    requires { row < length rows.now / row_width }
    ensures { result ≡ choice_sound rows.now items.now row }
{
    if !no_bounds(rows, items, row)
        || row_count(rows, row) == 0
        || !range_inside(rows, items, row)
    {
        return false;
    }
    let first = row_first(rows, row) as usize;
    let n = row_count(rows, row) as usize;
    (first..first + n).all(|i| alternative_sound(rows, items, row, i))
        && (first + 1..first + n).all(|i| tag_before(items, i - 1, i))
}
