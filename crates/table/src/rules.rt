// The rules of a row without components (document 01, "The type table").
ghost use Rattle.std.specs.Prelude.{◌≡◌, ◌||◌, eqb, ◌+◌, ◌*◌, ◌/◌, ◌<◌, ◌≤◌, length};
ghost use Rattle.x696.specs.Table.{row_width, item_width, rest_zero};
ghost use Rattle.x696.specs.TableCheck.{every, ascending, no_bounds, no_range, range_inside, integer_sound, enumerated_sound, string_sound};
ghost use Rattle.table.specs.Orders.{rank_before};

use crate::words::{
    component_default, component_mark, enumerated_number, items_in, row_bounds, row_count,
    row_first,
};
use octets::numbers::rank_of;

// Flags, A and B are 0.
#[tactic(auto, unfolding(x696::specs::TableCheck::no_bounds))]
pub fn no_bounds(rows: &[u64], items: &[u64], row: usize) -> bool
    requires { row < length rows.now / row_width }
    ensures { result ≡ no_bounds rows.now items.now row }
{
    let bounds = row_bounds(rows, row);
    bounds.flags == 0 && bounds.a == 0 && bounds.b == 0
}

// First item and item count are 0.
#[tactic(auto, unfolding(x696::specs::TableCheck::no_range))]
pub fn no_range(rows: &[u64], items: &[u64], row: usize) -> bool
    requires { row < length rows.now / row_width }
    ensures { result ≡ no_range rows.now items.now row }
{
    row_first(rows, row) == 0 && row_count(rows, row) == 0
}

// The row's items lie inside the item list. The sum of first and count is not formed: it might wrap.
#[tactic(auto, unfolding(x696::specs::TableCheck::range_inside))]
pub fn range_inside(rows: &[u64], items: &[u64], row: usize) -> bool
    requires { row < length rows.now / row_width }
    ensures { result ≡ range_inside rows.now items.now row }
{
    let n = items_in(items) as u64;
    let first = row_first(rows, row);
    first <= n && row_count(rows, row) <= n - first
}

// Kind 2.
#[tactic(auto, unfolding(x696::specs::TableCheck::integer_sound, x696::specs::TableCheck::given, x696::specs::Outcome::choose))]
pub fn integer_sound(rows: &[u64], items: &[u64], row: usize) -> bool
    requires { row < length rows.now / row_width }
    ensures { result ≡ integer_sound rows.now items.now row }
{
    let bounds = row_bounds(rows, row);
    bounds.flags < 4
        && (bounds.has_lower() || bounds.a == 0)
        && (bounds.has_upper() || bounds.b == 0)
        && bounds.is_ordered()
        && no_range(rows, items, row)
}

// Kinds 7 to 9.
#[tactic(auto, unfolding(x696::specs::TableCheck::string_sound, x696::specs::TableCheck::given, x696::specs::Outcome::choose))]
pub fn string_sound(rows: &[u64], items: &[u64], row: usize) -> bool
    requires { row < length rows.now / row_width }
    ensures { result ≡ string_sound rows.now items.now row }
{
    let bounds = row_bounds(rows, row);
    (bounds.flags == 0 || bounds.flags == 2)
        && bounds.a <= 65535
        && bounds.b <= 65535
        && bounds.has_ordered_sizes()
        && no_range(rows, items, row)
}

// The words that an ENUMERATED's and a SEQUENCE OF's item do not use are 0.
#[tactic(auto, unfolding(x696::specs::Table::rest_zero))]
pub fn rest_zero(items: &[u64], i: usize) -> bool
    requires { i < length items.now / item_width }
    ensures { result ≡ rest_zero items.now i }
{
    component_mark(items, i) == 0 && component_default(items, i) == 0
}

// The signed order of two items' numbers.
fn rank_before(items: &[u64], i: usize, j: usize) -> bool
    requires { (i < length items.now / item_width) × (j < length items.now / item_width) }
    ensures { result ≡ rank_before items.now i j }
{
    rank_of(enumerated_number(items, i)) < rank_of(enumerated_number(items, j))
}

// Kind 3.
#[tactic(auto, unfolding(x696::specs::TableCheck::range_inside, x696::specs::TableCheck::enumerated_sound, x696::specs::TableCheck::given, x696::specs::Outcome::choose))]
pub fn enumerated_sound(rows: &[u64], items: &[u64], row: usize) -> bool
    requires { row < length rows.now / row_width }
    ensures { result ≡ enumerated_sound rows.now items.now row }
{
    if !no_bounds(rows, items, row)
        || row_count(rows, row) == 0
        || !range_inside(rows, items, row)
    {
        return false;
    }
    let first = row_first(rows, row) as usize;
    let n = row_count(rows, row) as usize;
    (first..first + n).all(|i| rest_zero(items, i))
        && (first + 1..first + n).all(|i| rank_before(items, i - 1, i))
}
