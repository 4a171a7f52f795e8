// "Sizes of octets, bits and occurrences are counted apart" (document 01): three one-number types, so that a BIT STRING's size can't
// be passed as a length or a quantity.
ghost use Rattle.std.specs.Prelude.{◌≡◌, ◌+◌};
ghost use Rattle.x696.specs.Bits.{bit_octets, unused_bits};

// What a length determinant counts (8.6.2).
#[derive(Clone, Copy, Debug, PartialEq, Eq)]
pub struct Octets(pub u64);

// The size of a BIT STRING (13).
#[derive(Clone, Copy, Debug, PartialEq, Eq)]
pub struct Bits(pub u64);

// What a quantity counts (17.2).
#[derive(Clone, Copy, Debug, PartialEq, Eq)]
pub struct Occurrences(pub u64);

impl Bits {
    // The octets that these bits fill. Never wraps: the sum n + 7 is not formed.
    pub fn octets(self) -> Octets
        ensures { result.0 ≡ bit_octets self.0 }
    {
        Octets(self.0.div_ceil(8))
    }

    // The bits of the last octet that are left unused, 0 to 7.
    pub fn unused(self) -> u64
        ensures { result ≡ unused_bits self.0 }
    {
        (8 - self.0 % 8) % 8
    }
}
