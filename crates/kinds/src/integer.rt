// INTEGER (10): by its form, then its bounds.
ghost use Rattle.std.specs.Prelude.{◌≡◌, ℕ, ◌+◌, ◌*◌, ◌^◌, ◌<◌, ◌≤◌, length, take, drop};
ghost use Rattle.x696.specs.Digits.{from_digits};
ghost use Rattle.x696.specs.Integer.{integer_form, read_form, fixed_unsigned, fixed_signed};
ghost use Rattle.x696.specs.Leaf.{integer};
ghost use Rattle.octets.specs.Answers.{NumberAnswer};
ghost use Rattle.kinds.specs.Run.{ScalarAnswer, leaf_at};

use crate::widths::{signed_width, unsigned_width};
use octets::answers::Number;
use octets::faults::{Cause, Fault};
use octets::numbers::{read_number, sign_extend};
use octets::variable::{read_signed, read_unsigned};
use table::bounds::Bounds;

// The number that k octets hold: one or two without a loop.
fn number_at(msg: &[u8], at: usize, k: usize) -> u64
    requires { (k ≤ 8) × (at + k ≤ length msg.now) }
    ensures { (result ≡ from_digits 8 (take k (drop at msg.now))) × (result < 2 ^ (8 * k)) }
{
    if k == 1 {
        return msg[at] as u64;
    }
    if k == 2 {
        return msg[at] as u64 * 256 + msg[at + 1] as u64;
    }
    read_number(msg, at, k)
}

// A fixed-size number of k octets.
fn fixed_unsigned(msg: &[u8], at: usize, k: usize) -> Result<Number, Fault>
    requires { (at ≤ length msg.now) × (k ≤ 8) }
    ensures { NumberAnswer msg.now (read_form (fixed_unsigned k) at (drop at msg.now)) at result }
{
    if msg.len() - at < k {
        return Err(Cause::Short.at(at));
    }
    Ok(Number {
        value: number_at(msg, at, k),
        next: at + k,
    })
}

fn fixed_signed(msg: &[u8], at: usize, k: usize) -> Result<Number, Fault>
    requires { (at ≤ length msg.now) × (1 ≤ k) × (k ≤ 8) }
    ensures { NumberAnswer msg.now (read_form (fixed_signed k) at (drop at msg.now)) at result }
{
    if msg.len() - at < k {
        return Err(Cause::Short.at(at));
    }
    Ok(Number {
        value: sign_extend(k, number_at(msg, at, k)),
        next: at + k,
    })
}

// By the form that the bounds give (10.3, 10.4).
fn read_form(bounds: Bounds, msg: &[u8], at: usize) -> Result<Number, Fault>
    requires { at ≤ length msg.now }
    ensures { NumberAnswer msg.now (read_form (integer_form bounds.flags bounds.a bounds.b) at (drop at msg.now)) at result }
{
    if bounds.is_unsigned() {
        if bounds.has_upper() {
            return fixed_unsigned(msg, at, unsigned_width(bounds.b));
        }
        return read_unsigned(msg, at, at);
    }
    if !bounds.has_lower() {
        return read_signed(msg, at, at);
    }
    if !bounds.has_upper() {
        return read_signed(msg, at, at);
    }
    fixed_signed(msg, at, signed_width(bounds.a, bounds.b))
}

pub fn read_integer(bounds: Bounds, msg: &[u8], at: usize) -> Result<Number, Fault>
    requires { at ≤ length msg.now }
    ensures { (count : ℕ) → ScalarAnswer msg.now (leaf_at (integer bounds.flags bounds.a bounds.b) msg.now at count) 2 at count result }
{
    let n = read_form(bounds, msg, at)?;
    if !bounds.allows(n.value) {
        return Err(Cause::NotAllowed.at(at));
    }
    Ok(n)
}
