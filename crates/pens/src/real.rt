// REAL as binary32 or binary64 (12.2, 12.3): the bits; one NaN each, a house rule.
ghost use Rattle.std.specs.Prelude.{◌^◌, ◌<◌};
ghost use Rattle.x696.specs.Leaf.{real};
ghost use Rattle.pens.specs.Flat.{Numbered};

use kinds::real::{Precision, real_allowed};
use octets::faults::Cause;
use octets::numbers::put_number;

pub fn write_real<P: Precision>(bits: u64, to: usize, out: &mut [u8]) -> Result<usize, Cause>
    requires { to < 2 ^ 40 }
    ensures { Numbered (real P.precision) bits to out.old out.new result }
{
    let sign = P::SIGN;
    let wide = sign - 1 + sign < bits;
    if wide {
        return Err(Cause::BadList);
    }
    if !real_allowed::<P>(bits) {
        return Err(Cause::NotAllowed);
    }
    let octets = P::OCTETS;
    put_number(out, to, octets, bits);
    Ok(to + octets)
}
