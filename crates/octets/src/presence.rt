// Presence bits of a SEQUENCE (16.2.3): read, and one bit set or cleared in place. Bit b stands in octet b / 8, from the top.
ghost use Rattle.std.specs.Prelude.{◌≡◌, Bool, List, ◌+◌, ◌*◌, ◌-◌, ◌/◌, ◌%◌, ◌^◌, ◌<◌, ◌≤◌, length, get_or, set, take, drop, replicate, eqb};
ghost use Rattle.std.proofs.lemmas.List.Edits.{sets};
ghost use Rattle.x696.specs.Bits.{bit_octets, unused_bits, low_bits_clear};
ghost use Rattle.octets.specs.Presence.{bit_at, with_bit};

use crate::words::{octet, put};

// 2 ^ (7 - j): the weight of bit j from the top of an octet.
fn weight(j: usize) -> u64
    requires { j < 8 }
    ensures { (result ≡ 2 ^ (7 - j)) × (result ≤ 128) × (1 ≤ result) }
{
    1 << (7 - j)
}

// Whether presence bit b of the preamble at `pre` is 1.
pub fn is_present(msg: &[u8], pre: usize, b: usize) -> bool
    requires { (pre ≤ length msg.now) × (b < 1024) }
    ensures { result ≡ eqb (bit_at msg.now pre b) 1 }
{
    octet(msg, pre + b / 8) / weight(b % 8) % 2 == 1
}

// Whether the lowest u bits of the n octets from `start` on are 0.
pub fn low_bits_clear(msg: &[u8], start: usize, n: usize, u: usize) -> bool
    requires { (u < 8) × (u ≤ 8 * n) × (start + n ≤ length msg.now) }
    ensures { result ≡ low_bits_clear u (take n (drop start msg.now)) }
{
    if u == 0 {
        return true;
    }
    octet(msg, start + n - 1) % weight(7 - u) == 0
}

// Stores n zero octets, as far as there is room. `fill` would ask for the part that has room first, and be no plainer.
pub fn put_zeros(out: &mut [u8], to: usize, n: usize)
    requires { (to < 2 ^ 48) × (n ≤ 128) }
    ensures { out.new ≡ sets out.old to (replicate n 0) }
{
    for i in 0..n {
        put(out, to + i, 0);
    }
}

// Sets or clears presence bit b of the preamble at `pre`, if there is room.
pub fn put_presence(out: &mut [u8], pre: usize, b: usize, present: bool)
    requires { (pre < 2 ^ 48) × (b < 1024) }
    ensures { out.new ≡ set out.old (pre + b / 8) (with_bit (get_or out.old (pre + b / 8) 0) (b % 8) present) }
{
    let k = pre + b / 8;
    let w = weight(b % 8);
    let o = octet(out, k);
    let bit = o / w % 2 * w;
    if present {
        put(out, k, ((o - bit + w) % 256) as u8);
    } else {
        put(out, k, ((o - bit) % 256) as u8);
    }
}
