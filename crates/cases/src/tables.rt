// The type table that cases are about.
ghost use Rattle.std.specs.Prelude.{◌≤◌, length};

use crate::numbers::Numbers;

// How many words of rows and of items a case file's tables have at most (docs/FORMATS.md).
pub const MOST_ROW_WORDS: usize = 1600;

pub const MOST_ITEM_WORDS: usize = 3200;

// The words of its rows, and those of its items.
#[derive(Clone, Copy)]
pub struct Table<'a> {
    pub rows: &'a [u64],
    pub items: &'a [u64],
}

impl<'a> Table<'a> {
    // The table whose two lists the text begins with, read into the slices.
    pub fn read(mut text: Numbers<'_>, rows: &'a mut [u64], items: &'a mut [u64]) -> Table<'a>
        ensures rows { length result.rows.now ≤ length rows.old }
        ensures items { length result.items.now ≤ length items.old }
    {
        Table {
            rows: text.words(rows),
            items: text.words(items),
        }
    }
}
