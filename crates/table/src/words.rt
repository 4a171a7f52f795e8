// The words of rows and items by name. Widths and positions of words stand here alone.
ghost use Rattle.std.specs.Prelude.{◌≡◌, ◌+◌, ◌*◌, ◌/◌, ◌<◌, ◌≤◌, length};
ghost use Rattle.x696.specs.Table.{row_width, row_word, row_kind, row_flags, row_a, row_b, row_first, row_count};
ghost use Rattle.x696.specs.Table.{item_width, item_word, enumerated_number, component_row, component_mark, component_default};
ghost use Rattle.table.specs.Kind.{code_of};
ghost use Rattle.x696.specs.Table.{tag_class, tag_number, alternative_row};

use crate::bounds::Bounds;
use crate::kind::Kind;

// Which word of an item names a row: of a SEQUENCE's or a SEQUENCE OF's, and of a CHOICE's.
pub const COMPONENT_ROW: usize = 0;

pub const ALTERNATIVE_ROW: usize = 2;

// How many whole rows, and whole items, a list holds.
pub fn rows_in(rows: &[u64]) -> usize
    ensures { result ≡ length rows.now / row_width }
{
    rows.len() / 6
}

pub fn items_in(items: &[u64]) -> usize
    ensures { result ≡ length items.now / item_width }
{
    items.len() / 3
}

fn row_word(rows: &[u64], row: usize, j: usize) -> u64
    requires { (row < length rows.now / row_width) × (j < row_width) }
    ensures { result ≡ row_word rows.now row j }
{
    rows[row * 6 + j]
}

pub fn item_word(items: &[u64], i: usize, j: usize) -> u64
    requires { (i < length items.now / item_width) × (j < item_width) }
    ensures { result ≡ item_word items.now i j }
{
    items[i * 3 + j]
}

pub fn row_kind(rows: &[u64], row: usize) -> u64
    requires { row < length rows.now / row_width }
    ensures { result ≡ row_kind rows.now row }
{
    row_word(rows, row, 0)
}

// The kind of a row that has one, as each row of a sound table has.
pub fn known_kind(rows: &[u64], row: usize) -> Kind
    requires { (row < length rows.now / row_width) × (0 < row_kind rows.now row) × (row_kind rows.now row ≤ 12) }
    ensures { code_of result ≡ row_kind rows.now row }
{
    Kind::try_from(row_kind(rows, row)).unwrap()
}

pub fn row_bounds(rows: &[u64], row: usize) -> Bounds
    requires { row < length rows.now / row_width }
    ensures { (result.flags ≡ row_flags rows.now row) × (result.a ≡ row_a rows.now row) × (result.b ≡ row_b rows.now row) }
{
    Bounds {
        flags: row_word(rows, row, 1),
        a: row_word(rows, row, 2),
        b: row_word(rows, row, 3),
    }
}

pub fn row_first(rows: &[u64], row: usize) -> u64
    requires { row < length rows.now / row_width }
    ensures { result ≡ row_first rows.now row }
{
    row_word(rows, row, 4)
}

pub fn row_count(rows: &[u64], row: usize) -> u64
    requires { row < length rows.now / row_width }
    ensures { result ≡ row_count rows.now row }
{
    row_word(rows, row, 5)
}

pub fn enumerated_number(items: &[u64], i: usize) -> u64
    requires { i < length items.now / item_width }
    ensures { result ≡ enumerated_number items.now i }
{
    item_word(items, i, 0)
}

pub fn component_row(items: &[u64], i: usize) -> u64
    requires { i < length items.now / item_width }
    ensures { result ≡ component_row items.now i }
{
    item_word(items, i, 0)
}

pub fn component_mark(items: &[u64], i: usize) -> u64
    requires { i < length items.now / item_width }
    ensures { result ≡ component_mark items.now i }
{
    item_word(items, i, 1)
}

pub fn component_default(items: &[u64], i: usize) -> u64
    requires { i < length items.now / item_width }
    ensures { result ≡ component_default items.now i }
{
    item_word(items, i, 2)
}

pub fn tag_class(items: &[u64], i: usize) -> u64
    requires { i < length items.now / item_width }
    ensures { result ≡ tag_class items.now i }
{
    item_word(items, i, 0)
}

pub fn tag_number(items: &[u64], i: usize) -> u64
    requires { i < length items.now / item_width }
    ensures { result ≡ tag_number items.now i }
{
    item_word(items, i, 1)
}

pub fn alternative_row(items: &[u64], i: usize) -> u64
    requires { i < length items.now / item_width }
    ensures { result ≡ alternative_row items.now i }
{
    item_word(items, i, 2)
}
