// Tags of a CHOICE's alternatives (8.7), read and written. A tag of thousands of octets costs one pass; its number stops at 2,097,152,
// which is in no table.
ghost use Rattle.std.specs.Prelude.{◌≡◌, ◌+◌, ◌*◌, ◌^◌, ◌<◌, ◌≤◌, length, drop};
ghost use Rattle.std.proofs.lemmas.List.Edits.{sets};
ghost use Rattle.x696.specs.Tag.{tag, tag_octets, read_tag};
ghost use Rattle.octets.specs.Answers.{TagAnswer, long_tag, capped};

use crate::answers::Tag;
use crate::faults::{Cause, Fault};
use crate::words::{octet, put};

// A number below 2,097,152 with one more group of seven bits, as far as 2,097,152.
fn with_group(n: u64, group: u64) -> u64
    requires { (n ≤ 2097152) × (group < 128) }
    ensures { (result ≡ capped (n * 128 + group)) × (result ≤ 2097152) }
{
    let more = n * 128 + group;
    if more < 2097152 { more } else { 2097152 }
}

// The groups of a tag number of 63 and above (8.7.2.3), read to the last octet, then judged.
fn long_tag(msg: &[u8], start: usize, class: u64, place: usize) -> Result<Tag, Fault>
    requires { start ≤ length msg.now }
    ensures { TagAnswer msg.now (long_tag class place (drop start msg.now)) start result }
{
    let mut n = 0;
    for i in start..msg.len() {
        let x = octet(msg, i);
        n = with_group(n, x % 128);
        if x < 128 {
            // below 63 the one octet is due (8.7.2.2); the first group is not 0 (8.7.2.3 c)
            let low = n < 63;
            if low {
                return Err(Cause::NotCanonical.at(place));
            }
            if octet(msg, start) == 128 {
                return Err(Cause::NotCanonical.at(place));
            }
            return Ok(Tag {
                class,
                number: n,
                next: i + 1,
            });
        }
    }
    Err(Cause::Short.at(place))
}

pub fn read_tag(msg: &[u8], at: usize, place: usize) -> Result<Tag, Fault>
    ensures { TagAnswer msg.now (read_tag place (drop at msg.now)) at result }
{
    if msg.len() <= at {
        return Err(Cause::Short.at(place));
    }
    let x = octet(msg, at);
    if x % 64 < 63 {
        return Ok(Tag {
            class: x / 64,
            number: x % 64,
            next: at + 1,
        });
    }
    long_tag(msg, at + 1, x / 64, place)
}

// Stores a tag of a table: the number is at most 2,097,151, so at most three groups.
pub fn put_tag(out: &mut [u8], to: usize, class: u64, number: u64) -> usize
    requires { (to < 2 ^ 40) × (class < 4) × (number < 2097152) }
    ensures { (out.new ≡ sets out.old to (tag_octets (tag class number))) × (result ≡ to + length (tag_octets (tag class number))) × (result ≤ to + 4) }
{
    let short = number < 63;
    if short {
        put(out, to, (class * 64 + number) as u8);
        return to + 1;
    }
    put(out, to, (class * 64 + 63) as u8);
    if number < 128 {
        put(out, to + 1, number as u8);
        return to + 2;
    }
    if number < 16384 {
        put(out, to + 1, (128 + number / 128) as u8);
        put(out, to + 2, (number % 128) as u8);
        return to + 3;
    }
    put(out, to + 1, (128 + number / 16384) as u8);
    put(out, to + 2, (128 + number / 128 % 128) as u8);
    put(out, to + 3, (number % 128) as u8);
    to + 4
}
