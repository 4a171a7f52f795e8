// A search by halving among places: an item is three words of a flat list, so there is no slice of what is compared. Cut three words
// each (`as_chunks`), the library's `binary_search_by_key` finds an item as well: tried, and `decode` of small components then
// misses its bar, 1.30 beside 1.17.
ghost use Rattle.std.specs.Prelude.{ℕ, ◌<◌};
ghost use Rattle.table.specs.Orders.{FindsBy};

use std::cmp::Ordering;

// A place among n that compares equal, if there is one, where those that compare less stand before it and the greater ones behind it.
pub fn find_by<F: Fn(usize) -> Ordering>(n: usize, compare: F) -> Option<usize>
    requires { (i : ℕ) → i < n → F.pre compare i }
    ensures { FindsBy (F.post compare) n result }
{
    let mut low = 0;
    let mut high = n;
    while low < high {
        let mid = low + (high - low) / 2;
        // equal first, apart from the rest: one `match` of all three costs a third to a half as much again
        let order = compare(mid);
        if order.is_eq() {
            return Some(mid);
        }
        match order {
            Ordering::Less => low = mid + 1,
            _ => high = mid,
        }
    }
    None
}
