// BOOLEAN (9, 31.3) and NULL (15).
ghost use Rattle.std.specs.Prelude.{List, ℕ, ◌^◌, ◌<◌};
ghost use Rattle.x696.specs.Leaf.{boolean, null};
ghost use Rattle.pens.specs.Flat.{Numbered};

use octets::faults::Cause;
use octets::words::put;

pub fn write_boolean(n: u64, to: usize, out: &mut [u8]) -> Result<usize, Cause>
    requires { to < 2 ^ 40 }
    ensures { Numbered boolean n to out.old out.new result }
{
    if 1 < n {
        return Err(Cause::BadList);
    }
    // TRUE is FF (31.3)
    put(out, to, (255 * n) as u8);
    Ok(to + 1)
}

pub fn write_null(n: u64, to: usize) -> Result<usize, Cause>
    ensures { (l : List ℕ) → Numbered null n to l l result }
{
    if n != 0 {
        return Err(Cause::BadList);
    }
    Ok(to)
}
