// Numbers of 1 to 8 octets, big end first, read and written; the signed order of words.
ghost use Rattle.std.specs.Prelude.{◌≡◌, ◌+◌, ◌*◌, ◌^◌, ◌<◌, ◌≤◌, ◌∷◌, length, take, drop};
ghost use Rattle.std.proofs.lemmas.List.Edits.{sets};
ghost use Rattle.x696.specs.Digits.{digits, from_digits};
ghost use Rattle.x696.specs.Fewest.{word_in, is_fewest, is_fewest_signed};
ghost use Rattle.x696.specs.Integer.{rank};

use crate::words::{octet, put};

// The number that the k octets from `start` on hold. `octet`, though all are there: without its test the loop is
// unrolled and the readers around it grow, so that validating and decoding small values cost 6 in 100 more.
pub fn read_number(msg: &[u8], start: usize, k: usize) -> u64
    requires { (k ≤ 8) × (start + k ≤ length msg.now) }
    ensures { (result ≡ from_digits 8 (take k (drop start msg.now))) × (result < 2 ^ (8 * k)) }
{
    let mut v = 0;
    for i in 0..k {
        v = v * 256 + octet(msg, start + i);
    }
    v
}

// The word that k octets with the unsigned number m stand for, in two's complement.
pub fn sign_extend(k: usize, m: u64) -> u64
    requires { (1 ≤ k) × (k ≤ 8) × (m < 2 ^ (8 * k)) }
    ensures { result ≡ word_in k m }
{
    let half = half_of(k);
    // what the sign of k octets adds to a word: 2 ^ 64 - 2 ^ (8 * k)
    let sign = u64::MAX - (half - 1) - half;
    if m < half { m } else { m + sign }
}

// 2 ^ (8 * k - 1): the numbers below it have no sign in k octets.
fn half_of(k: usize) -> u64
    requires { (1 ≤ k) × (k ≤ 8) }
    ensures { result + result ≡ 2 ^ (8 * k) }
{
    1 << (8 * k - 1)
}

// Whether the k octets from `start` on are the fewest for their number: one, or the first is not 0 (31.2, 31.4).
pub fn is_fewest(msg: &[u8], start: usize, k: usize) -> bool
    requires { start + k ≤ length msg.now }
    ensures { result ≡ is_fewest 8 (take k (drop start msg.now)) }
{
    if k == 0 {
        return false;
    }
    if k == 1 {
        return true;
    }
    octet(msg, start) != 0
}

// The same of a signed number: one, or the first nine bits are not all alike (31.4, 31.5).
pub fn is_fewest_signed(msg: &[u8], start: usize, k: usize) -> bool
    requires { start + k ≤ length msg.now }
    ensures { result ≡ is_fewest_signed (take k (drop start msg.now)) }
{
    if k == 0 {
        return false;
    }
    if k == 1 {
        return true;
    }
    let first = octet(msg, start);
    let second = octet(msg, start + 1);
    if second < 128 {
        first != 0
    } else {
        first != 255
    }
}

// The k octets of w, big end first, as far as there is room. Over `to..to + k` the turns would cost more.
fn put_digits(out: &mut [u8], to: usize, k: usize, w: u64)
    requires { (k ≤ 8) × (to < 2 ^ 48) }
    ensures { out.new ≡ sets out.old to (digits 8 k w) }
{
    let mut v = w;
    for i in (0..k).rev() {
        put(out, to + i, (v % 256) as u8);
        v = v / 256;
    }
}

// Stores the k octets of w, big end first, as far as there is room. Where there is none, as in measuring, no octet is worked out.
pub fn put_number(out: &mut [u8], to: usize, k: usize, w: u64)
    requires { (k ≤ 8) × (to < 2 ^ 48) }
    ensures { out.new ≡ sets out.old to (digits 8 k w) }
{
    if out.len() <= to {
        return;
    }
    put_digits(out, to, k, w);
}

// Stores an octet and behind it the k octets of w, as far as there is room.
pub(crate) fn put_led(out: &mut [u8], to: usize, lead: u8, k: usize, w: u64) -> usize
    requires { (k ≤ 8) × (to < 2 ^ 40) }
    ensures { (out.new ≡ sets out.old to (lead ∷ digits 8 k w)) × (result ≡ to + 1 + k) }
{
    put(out, to, lead);
    put_number(out, to + 1, k, w);
    to + 1 + k
}

// Where a word stands in the signed order.
pub fn rank_of(w: u64) -> u64
    ensures { result ≡ rank w }
{
    w.wrapping_add(0x8000_0000_0000_0000)
}
