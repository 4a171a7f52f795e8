// Words and octets of lists by position, and stores that skip what does not fit.
ghost use Rattle.std.specs.Prelude.{◌≡◌, ◌+◌, ◌<◌, ◌≤◌, length, get_or, set, take, drop};
ghost use Rattle.std.proofs.lemmas.List.Edits.{sets};

// The octet at i, 0 past the end.
pub fn octet(s: &[u8], i: usize) -> u64
    ensures { (result ≡ get_or s.now i 0) × (result < 256) }
{
    if i < s.len() { s[i] as u64 } else { 0 }
}

// Stores x at k if there is room. By the index: of what is written through a slice's `get_mut` a proof knows nothing.
pub fn put<T: Copy>(out: &mut [T], k: usize, x: T)
    ensures { out.new ≡ set out.old k x }
{
    if k < out.len() {
        out[k] = x;
    }
}

// Stores n octets of `from`, from `start` on, at `to`, where all have room. Octet by octet: `copy_from_slice` is a
// call, around which the writers that this is compiled into keep less in registers, and writing small values costs 7
// in 100 more.
fn copy_all(from: &[u8], start: usize, n: usize, out: &mut [u8], to: usize)
    requires { (start + n ≤ length from.now) × (to + n ≤ length out.old) }
    ensures { out.new ≡ sets out.old to (take n (drop start from.now)) }
{
    for i in 0..n {
        out[to + i] = from[start + i];
    }
}

// The same of 32 octets. All are read before one is stored, so that no test for overlap is needed to copy them as
// vectors. (By `copy_from_slice` writing strings costs a third more, and through the array more than twice as much.)
fn copy_block(from: &[u8], start: usize, out: &mut [u8], to: usize)
    requires { (start + 32 ≤ length from.now) × (to + 32 ≤ length out.old) }
    ensures { out.new ≡ sets out.old to (take 32 (drop start from.now)) }
{
    let mut block = [0u8; 32];
    copy_all(from, start, 32, &mut block, 0);
    copy_all(&block, 0, 32, out, to);
}

// Stores n octets of `from`, from `start` on, at `to`, as far as there is room: block by block, then what is left.
pub fn copy(from: &[u8], start: usize, n: usize, out: &mut [u8], to: usize)
    requires { start + n ≤ length from.now }
    ensures { out.new ≡ sets out.old to (take n (drop start from.now)) }
{
    if out.len() <= to {
        return;
    }
    let m = n.min(out.len() - to); // what has room
    for b in 0..m / 32 {
        copy_block(from, start + b * 32, out, to + b * 32);
    }
    let i = m / 32 * 32;
    copy_all(from, start + i, m - i, out, to + i);
}
