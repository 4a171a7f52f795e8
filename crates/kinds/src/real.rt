// REAL as binary32 or binary64 (12.2, 12.3): the bits; one NaN each, a house rule.
ghost use Rattle.std.specs.Prelude.{◌≡◌, ℕ, ◌^◌, ◌≤◌, length};
ghost use Rattle.x696.specs.Real.{Precision as PrecisionOf, binary32, binary64, real_allowed};
ghost use Rattle.x696.specs.Leaf.{real, real_kind};
ghost use Rattle.kinds.specs.Run.{ScalarAnswer, leaf_at};
ghost use Rattle.kinds.specs.Format.{Format, single_format, double_format};

use octets::answers::Number;
use octets::faults::{Cause, Fault};
use octets::numbers::read_number;

// The constants in which the two differ.
pub trait Precision {
    const OCTETS: usize;

    // the weight of the sign bit
    const SIGN: u64;

    const INFINITY: u64;

    // the one NaN that is written
    const NAN: u64;

    ghost OCTETS: { ℕ };

    ghost SIGN: { ℕ };

    ghost INFINITY: { ℕ };

    ghost NAN: { ℕ };

    ghost precision: { PrecisionOf };

    ghost format: { Format precision OCTETS SIGN INFINITY NAN };
}

pub struct Single;

impl Precision for Single {
    const OCTETS: usize = 4;

    const SIGN: u64 = 0x8000_0000;

    const INFINITY: u64 = 0x7f80_0000;

    const NAN: u64 = 0x7fc0_0000;

    ghost OCTETS = { 4 };

    ghost SIGN = { 2 ^ 31 };

    ghost INFINITY = { 0x7F800000 };

    ghost NAN = { 0x7FC00000 };

    ghost precision = { binary32 };

    ghost format = { single_format };
}

pub struct Double;

impl Precision for Double {
    const OCTETS: usize = 8;

    const SIGN: u64 = 0x8000_0000_0000_0000;

    const INFINITY: u64 = 0x7ff0_0000_0000_0000;

    const NAN: u64 = 0x7ff8_0000_0000_0000;

    ghost OCTETS = { 8 };

    ghost SIGN = { 2 ^ 63 };

    ghost INFINITY = { 0x7FF0000000000000 };

    ghost NAN = { 0x7FF8000000000000 };

    ghost precision = { binary64 };

    ghost format = { double_format };
}

// No NaN, or the one that is written.
pub fn real_allowed<P: Precision>(bits: u64) -> bool
    ensures { result ≡ real_allowed P.precision bits }
{
    bits % P::SIGN <= P::INFINITY || bits == P::NAN
}

pub fn read_real<P: Precision>(msg: &[u8], at: usize) -> Result<Number, Fault>
    requires { at ≤ length msg.now }
    ensures { (count : ℕ) → ScalarAnswer msg.now (leaf_at (real P.precision) msg.now at count) (real_kind P.precision) at count result }
{
    let octets = P::OCTETS;
    if msg.len() - at < octets {
        return Err(Cause::Short.at(at));
    }
    let bits = read_number(msg, at, octets);
    if !real_allowed::<P>(bits) {
        return Err(Cause::NotCanonical.at(at));
    }
    Ok(Number {
        value: bits,
        next: at + octets,
    })
}
