// ENUMERATED numbers (11, 31.5), read and written.
ghost use Rattle.std.specs.Prelude.{◌≡◌, ◌+◌, ◌^◌, ◌<◌, ◌≤◌, length, drop};
ghost use Rattle.std.proofs.lemmas.List.Edits.{sets};
ghost use Rattle.x696.specs.Enumerated.{enumerated_octets, read_enumerated};
ghost use Rattle.octets.specs.Answers.{NumberAnswer, long_number};

use crate::answers::Number;
use crate::faults::{Cause, Fault};
use crate::fewest::fewest_signed;
use crate::numbers::put_led;
use crate::variable::signed_in;
use crate::words::{octet, put};

// The long form, from its k subsequent octets on (11.4).
fn long_number(msg: &[u8], start: usize, k: usize, place: usize) -> Result<Number, Fault>
    requires { (start ≤ length msg.now) × (k ≤ 127) }
    ensures { NumberAnswer msg.now (long_number place k (drop start msg.now)) start result }
{
    // at least one subsequent octet (11.4)
    if k == 0 {
        return Err(Cause::NotCanonical.at(place));
    }
    if msg.len() - start < k {
        return Err(Cause::Short.at(place));
    }
    // one octet below 128: the short form is due (31.5)
    if k == 1 {
        if octet(msg, start) < 128 {
            return Err(Cause::NotCanonical.at(place));
        }
    }
    signed_in(msg, start, k, place)
}

pub fn read_enumerated(msg: &[u8], at: usize, place: usize) -> Result<Number, Fault>
    ensures { NumberAnswer msg.now (read_enumerated place (drop at msg.now)) at result }
{
    if msg.len() <= at {
        return Err(Cause::Short.at(place));
    }
    let x = octet(msg, at);
    if x < 128 {
        return Ok(Number {
            value: x,
            next: at + 1,
        });
    }
    long_number(msg, at + 1, x as usize - 128, place)
}

pub fn put_enumerated(out: &mut [u8], to: usize, w: u64) -> usize
    requires { to < 2 ^ 40 }
    ensures { (out.new ≡ sets out.old to (enumerated_octets w)) × (result ≡ to + length (enumerated_octets w)) × (result ≤ to + 9) }
{
    if w < 128 {
        put(out, to, (w % 256) as u8);
        return to + 1;
    }
    let k = fewest_signed(w);
    put_led(out, to, (128 + k) as u8, k, w)
}
