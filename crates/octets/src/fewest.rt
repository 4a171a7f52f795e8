// The fewest octets that hold a number (31.2, 31.4, 31.5, 31.7).
ghost use Rattle.std.specs.Prelude.{◌≡◌, ◌+◌, ◌*◌, ◌<◌, ◌≤◌};
ghost use Rattle.x696.specs.Fewest.{fewest, magnitude, fewest_signed};

// Unsigned: 1 to 8, by the highest bit that is 1.
pub fn fewest_unsigned(n: u64) -> usize
    ensures { (result ≡ fewest 8 n) × (1 ≤ result) × (result ≤ 8) }
{
    let top = n.max(1).ilog2() as usize;
    top / 8 + 1
}

// How far a word lies from 0, or from -1 if it is negative. (The library's `unsigned_abs` counts from 0 alone.)
pub fn magnitude_of(w: u64) -> u64
    ensures { (result ≡ magnitude w) × (result < 0x8000_0000_0000_0000) }
{
    if w < 0x8000_0000_0000_0000 {
        w
    } else {
        0xffff_ffff_ffff_ffff - w
    }
}

// Signed, in two's complement: 1 to 8.
pub fn fewest_signed(w: u64) -> usize
    ensures { (result ≡ fewest_signed w) × (1 ≤ result) × (result ≤ 8) }
{
    fewest_unsigned(magnitude_of(w) * 2)
}
