// A table whose check found no fault, and its words by name: what its rows and items promise need not be asked for again.
ghost use Rattle.std.specs.Prelude.{◌≡◌, ◌+◌, ◌*◌, ◌/◌, ◌<◌, ◌≤◌, length};
ghost use Rattle.x696.specs.Table.{row_width, row_kind, row_flags, row_a, row_b, row_first, row_count};
ghost use Rattle.x696.specs.Table.{item_width, component_row, component_mark, component_default};
ghost use Rattle.x696.specs.Table.{tag_class, tag_number, alternative_row};
ghost use Rattle.x696.specs.SoundTable.{SoundTable};

use crate::bounds::Bounds;
use crate::check::{TableFault, judge};
use crate::kind::Kind;
use crate::words::{
    alternative_row, component_default, component_mark, component_row, known_kind, row_bounds,
    row_count, row_first, tag_class, tag_number,
};

#[derive(Clone, Copy)]
pub struct Table<'a> {
    pub rows: &'a [u64],
    pub items: &'a [u64],
    pub ghost sound: { SoundTable rows.now items.now },
}

impl<'a> Table<'a> {
    ghost use Rattle.table.specs.Checked.{Checked};
    ghost use Rattle.table.specs.Kind.{code_of};

    // The table of these rows and items, if its check finds no fault.
    pub fn checked(rows: &'a [u64], items: &'a [u64]) -> Result<Self, TableFault>
        ensures { Checked rows.now items.now result }
    {
        judge(rows, items)?;
        Ok(Table { rows, items })
    }

    pub fn row_kind(&self, row: usize) -> Kind
        requires { row < length self.now.rows.now / row_width }
        ensures { code_of result ≡ row_kind self.now.rows.now row }
    {
        known_kind(self.rows, row)
    }

    pub fn row_bounds(&self, row: usize) -> Bounds
        requires { row < length self.now.rows.now / row_width }
        ensures { (result.flags ≡ row_flags self.now.rows.now row) × (result.a ≡ row_a self.now.rows.now row) × (result.b ≡ row_b self.now.rows.now row) }
    {
        row_bounds(self.rows, row)
    }

    pub fn row_first(&self, row: usize) -> usize
        requires { row < length self.now.rows.now / row_width }
        ensures { result ≡ row_first self.now.rows.now row }
    {
        row_first(self.rows, row) as usize
    }

    pub fn row_count(&self, row: usize) -> usize
        requires { row < length self.now.rows.now / row_width }
        ensures { result ≡ row_count self.now.rows.now row }
    {
        row_count(self.rows, row) as usize
    }

    pub fn component_row(&self, i: usize) -> usize
        requires { i < length self.now.items.now / item_width }
        ensures { result ≡ component_row self.now.items.now i }
    {
        component_row(self.items, i) as usize
    }

    pub fn component_mark(&self, i: usize) -> u64
        requires { i < length self.now.items.now / item_width }
        ensures { result ≡ component_mark self.now.items.now i }
    {
        component_mark(self.items, i)
    }

    pub fn component_default(&self, i: usize) -> u64
        requires { i < length self.now.items.now / item_width }
        ensures { result ≡ component_default self.now.items.now i }
    {
        component_default(self.items, i)
    }

    pub fn tag_class(&self, i: usize) -> u64
        requires { i < length self.now.items.now / item_width }
        ensures { result ≡ tag_class self.now.items.now i }
    {
        tag_class(self.items, i)
    }

    pub fn tag_number(&self, i: usize) -> u64
        requires { i < length self.now.items.now / item_width }
        ensures { result ≡ tag_number self.now.items.now i }
    {
        tag_number(self.items, i)
    }

    pub fn alternative_row(&self, i: usize) -> usize
        requires { i < length self.now.items.now / item_width }
        ensures { result ≡ alternative_row self.now.items.now i }
    {
        alternative_row(self.items, i) as usize
    }
}
