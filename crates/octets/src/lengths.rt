// Length determinants (8.6, 31.2) with the octets that they count, read and written. A length is believed only when its octets are there.
ghost use Rattle.std.specs.Prelude.{◌≡◌, ◌+◌, ◌^◌, ◌<◌, ◌≤◌, length, drop};
ghost use Rattle.std.proofs.lemmas.List.Edits.{sets};
ghost use Rattle.x696.specs.Length.{run, length_octets, read_run};
ghost use Rattle.octets.specs.Answers.{RunAnswer, long_run};

use crate::answers::Piece;
use crate::faults::{Cause, Fault};
use crate::fewest::fewest_unsigned;
use crate::numbers::{is_fewest, put_led, read_number};
use crate::units::Octets;
use crate::words::{octet, put};

// The n octets from `start` on; 5 where fewer are left.
pub fn run_at(msg: &[u8], start: usize, n: u64, place: usize) -> Result<Piece, Fault>
    requires { start ≤ length msg.now }
    ensures { RunAnswer msg.now (run place n (drop start msg.now)) start result }
{
    let left = (msg.len() - start) as u64;
    if left < n {
        return Err(Cause::Short.at(place));
    }
    Ok(Piece {
        start,
        length: Octets(n),
    })
}

// A determinant in the long form, from its subsequent octets on: there are k of them (8.6.5).
fn long_run(msg: &[u8], start: usize, k: usize, place: usize) -> Result<Piece, Fault>
    requires { (start ≤ length msg.now) × (k ≤ 127) }
    ensures { RunAnswer msg.now (long_run place k (drop start msg.now)) start result }
{
    // at least one subsequent octet (8.6.5)
    if k == 0 {
        return Err(Cause::NotCanonical.at(place));
    }
    if msg.len() - start < k {
        return Err(Cause::Short.at(place));
    }
    // the smallest number of octets (31.2)
    if !is_fewest(msg, start, k) {
        return Err(Cause::NotCanonical.at(place));
    }
    // 2 ^ 64 octets and more are not there
    let huge = 8 < k;
    if huge {
        return Err(Cause::Short.at(place));
    }
    let n = read_number(msg, start, k);
    // below 128 the short form is due (31.2)
    let low = n < 128;
    if low {
        return Err(Cause::NotCanonical.at(place));
    }
    run_at(msg, start + k, n, place)
}

// A length determinant and the octets that it counts.
pub fn read_run(msg: &[u8], at: usize, place: usize) -> Result<Piece, Fault>
    ensures { RunAnswer msg.now (read_run place (drop at msg.now)) at result }
{
    if msg.len() <= at {
        return Err(Cause::Short.at(place));
    }
    let x = octet(msg, at);
    if x < 128 {
        return run_at(msg, at + 1, x, place);
    }
    long_run(msg, at + 1, x as usize - 128, place)
}

// Stores the determinant of a length.
pub fn put_length(out: &mut [u8], to: usize, n: Octets) -> usize
    requires { to < 2 ^ 40 }
    ensures { (out.new ≡ sets out.old to (length_octets n.0)) × (result ≡ to + length (length_octets n.0)) × (result ≤ to + 9) }
{
    let m = n.0;
    let short = m < 128;
    if short {
        put(out, to, (m % 256) as u8);
        return to + 1;
    }
    let k = fewest_unsigned(m);
    put_led(out, to, (128 + k) as u8, k, m)
}
