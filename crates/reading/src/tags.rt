// The alternatives of a CHOICE: found by halving, since tags ascend.
ghost use Rattle.std.specs.Prelude.{◌+◌, ◌/◌, ◌≤◌, length};
ghost use Rattle.x696.specs.Table.{item_width};
ghost use Rattle.reading.specs.Parts.{TagsAscend, Chooses};

use std::cmp::Ordering;
use table::search::find_by;
use table::words::{tag_class, tag_number};

// The place of a tag among the n alternatives from `first` on.
pub fn find_tag(items: &[u64], first: usize, n: usize, class: u64, number: u64) -> Option<usize>
    requires { (first + n ≤ length items.now / item_width) × TagsAscend items.now first n }
    ensures { Chooses items.now first n class number result }
{
    // By class, then number. Compared as pairs they cost more: `decode` of small components misses its bar, 1.28.
    find_by(n, |i| {
        let k = first + i;
        match tag_class(items, k).cmp(&class) {
            Ordering::Equal => tag_number(items, k).cmp(&number),
            order => order,
        }
    })
}
