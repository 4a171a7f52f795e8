// The numbers of an ENUMERATED: found by halving, since they ascend.
ghost use Rattle.std.specs.Prelude.{◌≡◌, ℕ, ◌+◌, ◌/◌, ◌<◌, ◌≤◌, length};
ghost use Rattle.x696.specs.Enumerated.{listed};
ghost use Rattle.x696.specs.Table.{item_width, numbers_from};
ghost use Rattle.table.specs.Orders.{Ascends};

use crate::search::find_by;
use crate::words::enumerated_number;
use octets::numbers::rank_of;

// Whether w is among the n numbers from `first` on.
pub fn is_listed(items: &[u64], first: usize, n: usize, w: u64) -> bool
    requires { (first + n ≤ length items.now / item_width) × Ascends items.now first n }
    ensures { result ≡ listed w (numbers_from items.now first n) }
{
    let goal = rank_of(w);
    find_by(n, |i| {
        rank_of(enumerated_number(items, first + i)).cmp(&goal)
    })
    .is_some()
}
