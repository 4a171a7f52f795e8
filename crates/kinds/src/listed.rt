// ENUMERATED (11, 31.5): the number, then the list.
ghost use Rattle.std.specs.Prelude.{◌≡◌, ℕ, ◌+◌, ◌/◌, ◌≤◌, length};
ghost use Rattle.x696.specs.Leaf.{enumerated};
ghost use Rattle.x696.specs.Table.{item_width, numbers_from};
ghost use Rattle.table.specs.Orders.{Ascends};
ghost use Rattle.kinds.specs.Run.{ScalarAnswer, leaf_at};

use octets::answers::Number;
use octets::enumerated::read_enumerated;
use octets::faults::{Cause, Fault};
use table::numbers::is_listed;

pub fn read_listed(
    items: &[u64],
    first: usize,
    n: usize,
    msg: &[u8],
    at: usize,
) -> Result<Number, Fault>
    requires { (at ≤ length msg.now) × (first + n ≤ length items.now / item_width) × Ascends items.now first n }
    ensures { (count : ℕ) → ScalarAnswer msg.now (leaf_at (enumerated (numbers_from items.now first n)) msg.now at count) 3 at count result }
{
    let x = read_enumerated(msg, at, at)?;
    if !is_listed(items, first, n, x.value) {
        return Err(Cause::NotAllowed.at(at));
    }
    Ok(x)
}
