// Numbers of a value list as the numbers that they stand for.
ghost use Rattle.std.specs.Prelude.{◌≡◌};
ghost use Rattle.std.specs.Float.{binary32, binary64};
ghost use Rattle.std.specs.Float.Ieee.{of_bits};
ghost use Rattle.std.specs.Int.{w64};
ghost use Rattle.std.proofs.Common.{to_z};

// The single real of 32 bits. A NaN's bits are not looked at again: there is one NaN (document 01, REAL).
pub fn single_of(b: u32) -> f32
    ensures { result ≡ of_bits binary32 b }
{
    if b % 0x8000_0000 <= 0x7f80_0000 {
        f32::from_bits(b)
    } else {
        0.0 / 0.0
    }
}

pub fn double_of(b: u64) -> f64
    ensures { result ≡ of_bits binary64 b }
{
    if b % 0x8000_0000_0000_0000 <= 0x7ff0_0000_0000_0000 {
        f64::from_bits(b)
    } else {
        0.0 / 0.0
    }
}

// The signed number of a two's complement word.
pub fn signed_of(w: u64) -> i64
    ensures { result ≡ to_z w64 w }
{
    w.cast_signed()
}
