// ENUMERATED (11, 31.5): the list, then the number.
ghost use Rattle.std.specs.Prelude.{◌+◌, ◌/◌, ◌^◌, ◌<◌, ◌≤◌, length};
ghost use Rattle.x696.specs.Leaf.{enumerated};
ghost use Rattle.x696.specs.Table.{item_width, numbers_from};
ghost use Rattle.table.specs.Orders.{Ascends};
ghost use Rattle.pens.specs.Flat.{Numbered};

use octets::enumerated::put_enumerated;
use octets::faults::Cause;
use table::numbers::is_listed;

pub fn write_listed(
    items: &[u64],
    first: usize,
    count: usize,
    n: u64,
    to: usize,
    out: &mut [u8],
) -> Result<usize, Cause>
    requires { (to < 2 ^ 40) × (first + count ≤ length items.now / item_width) × Ascends items.now first count }
    ensures { Numbered (enumerated (numbers_from items.now first count)) n to out.old out.new result }
{
    if !is_listed(items, first, count, n) {
        return Err(Cause::NotAllowed);
    }
    Ok(put_enumerated(out, to, n))
}
