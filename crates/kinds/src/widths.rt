// The width of an INTEGER, chosen by its bounds (10.3, 10.4).
ghost use Rattle.std.specs.Prelude.{◌≡◌, ◌&&◌, ◌+◌, ◌-◌, ◌^◌, ◌≤◌, leb, ltb};
ghost use Rattle.x696.specs.Integer.{unsigned_width, within, signed_width};

use octets::numbers::rank_of;

pub fn unsigned_width(b: u64) -> usize
    ensures { (result ≡ unsigned_width b) × (1 ≤ result) × (result ≤ 8) }
{
    if b < 0x100 {
        return 1;
    }
    if b < 0x1_0000 {
        return 2;
    }
    if b < 0x1_0000_0000 { 4 } else { 8 }
}

// Whether both bounds lie in -h .. h - 1.
fn is_within(h: u64, low: u64, high: u64) -> bool
    requires { h ≤ 0x8000_0000 }
    ensures { result ≡ leb (2 ^ 63 - h) low && ltb high (2 ^ 63 + h) }
{
    if low < 0x8000_0000_0000_0000 - h {
        return false;
    }
    high < 0x8000_0000_0000_0000 + h
}

pub fn signed_width(a: u64, b: u64) -> usize
    ensures { (result ≡ signed_width a b) × (1 ≤ result) × (result ≤ 8) }
{
    let low = rank_of(a);
    let high = rank_of(b);
    if is_within(0x80, low, high) {
        return 1;
    }
    if is_within(0x8000, low, high) {
        return 2;
    }
    if is_within(0x8000_0000, low, high) {
        4
    } else {
        8
    }
}
