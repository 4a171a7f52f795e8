// Contents of strings (27): the characters of VisibleString.
ghost use Rattle.std.specs.Prelude.{◌≡◌, ◌+◌, ◌≤◌, length, take, drop};
ghost use Rattle.x696.specs.String.{visible};

// Whether the n octets from `start` on are characters 32 to 126: by the least and the greatest. The loop has no other
// way out, so that it runs on vectors.
pub fn is_visible(msg: &[u8], start: usize, n: usize) -> bool
    requires { start + n ≤ length msg.now }
    ensures { result ≡ visible (take n (drop start msg.now)) }
{
    let mut low = 126u8;
    let mut high = 32u8;
    for x in &msg[start..start + n] {
        low = low.min(*x);
        high = high.max(*x);
    }
    if low < 32 {
        return false;
    }
    high <= 126
}
