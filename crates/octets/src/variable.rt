// Variable-size numbers (10.3 e, 10.4 e) and quantities (17.2), in the fewest octets (31.4, 31.7), read and written.
ghost use Rattle.std.specs.Prelude.{◌≡◌, ◌+◌, ◌^◌, ◌<◌, ◌≤◌, length, take, drop};
ghost use Rattle.std.proofs.lemmas.List.Edits.{sets};
ghost use Rattle.x696.specs.Variable.{variable_unsigned, read_unsigned, variable_signed, read_signed};
ghost use Rattle.octets.specs.Answers.{NumberAnswer, QuantityAnswer, unsigned_in, signed_in};

use crate::answers::{Number, Quantity};
use crate::faults::{Cause, Fault};
use crate::fewest::{fewest_signed, fewest_unsigned};
use crate::lengths::read_run;
use crate::numbers::{is_fewest, is_fewest_signed, put_led, read_number, sign_extend};
use crate::units::Occurrences;

// Unsigned and signed numbers are read alike. By a trait of their sign they share six lines and need seven names and two laws more: no
// plainer.

// The unsigned number in a run of k octets: 6, then 8.
fn unsigned_in(msg: &[u8], start: usize, k: usize, place: usize) -> Result<Number, Fault>
    requires { start + k ≤ length msg.now }
    ensures { NumberAnswer msg.now (unsigned_in place (take k (drop start msg.now)) (drop (start + k) msg.now)) start result }
{
    // the smallest number of octets (31.4, 31.7)
    if !is_fewest(msg, start, k) {
        return Err(Cause::NotCanonical.at(place));
    }
    // house limit: 64 bits
    if 8 < k {
        return Err(Cause::Wide.at(place));
    }
    Ok(Number {
        value: read_number(msg, start, k),
        next: start + k,
    })
}

// The signed number in a run of k octets: 6, then 8.
pub fn signed_in(msg: &[u8], start: usize, k: usize, place: usize) -> Result<Number, Fault>
    requires { start + k ≤ length msg.now }
    ensures { NumberAnswer msg.now (signed_in place (take k (drop start msg.now)) (drop (start + k) msg.now)) start result }
{
    // the smallest number of octets (31.4, 31.5)
    if !is_fewest_signed(msg, start, k) {
        return Err(Cause::NotCanonical.at(place));
    }
    // house limit: 64 bits
    if 8 < k {
        return Err(Cause::Wide.at(place));
    }
    Ok(Number {
        value: sign_extend(k, read_number(msg, start, k)),
        next: start + k,
    })
}

// A variable-size unsigned number.
pub fn read_unsigned(msg: &[u8], at: usize, place: usize) -> Result<Number, Fault>
    ensures { NumberAnswer msg.now (read_unsigned place (drop at msg.now)) at result }
{
    let run = read_run(msg, at, place)?;
    unsigned_in(msg, run.start, run.length.0 as usize, place)
}

// A variable-size signed number.
pub fn read_signed(msg: &[u8], at: usize, place: usize) -> Result<Number, Fault>
    ensures { NumberAnswer msg.now (read_signed place (drop at msg.now)) at result }
{
    let run = read_run(msg, at, place)?;
    signed_in(msg, run.start, run.length.0 as usize, place)
}

// The quantity of a SEQUENCE OF (17.2).
pub fn read_quantity(msg: &[u8], at: usize, place: usize) -> Result<Quantity, Fault>
    ensures { QuantityAnswer msg.now (read_unsigned place (drop at msg.now)) at result }
{
    let n = read_unsigned(msg, at, place)?;
    Ok(Quantity {
        many: Occurrences(n.value),
        next: n.next,
    })
}

// Stores a variable-size unsigned number; a determinant of 1 to 8 is one octet.
pub fn put_unsigned(out: &mut [u8], to: usize, n: u64) -> usize
    requires { to < 2 ^ 40 }
    ensures { (out.new ≡ sets out.old to (variable_unsigned n)) × (result ≡ to + length (variable_unsigned n)) × (result ≤ to + 9) }
{
    let k = fewest_unsigned(n);
    put_led(out, to, k as u8, k, n)
}

// Stores a quantity.
pub fn put_quantity(out: &mut [u8], to: usize, n: Occurrences) -> usize
    requires { to < 2 ^ 40 }
    ensures { (out.new ≡ sets out.old to (variable_unsigned n.0)) × (result ≡ to + length (variable_unsigned n.0)) × (result ≤ to + 9) }
{
    put_unsigned(out, to, n.0)
}

// Stores a variable-size signed number.
pub fn put_signed(out: &mut [u8], to: usize, w: u64) -> usize
    requires { to < 2 ^ 40 }
    ensures { (out.new ≡ sets out.old to (variable_signed w)) × (result ≡ to + length (variable_signed w)) × (result ≤ to + 9) }
{
    let k = fewest_signed(w);
    put_led(out, to, k as u8, k, w)
}
