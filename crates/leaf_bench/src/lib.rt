// Loops over the leaves of crate `octets`, exported so that a Rust program can count their instructions beside those of its own
// (bench/leaves). Nothing else uses them; their contracts say what the last leaf's answer adds up to only in that they return.
#![tactic(auto)]

ghost use Rattle.std.specs.Prelude.{◌≤◌, ℕ};

use octets::answers::Number;
use octets::faults::Fault;
use octets::lengths::{put_length, read_run};
use octets::tags::{put_tag, read_tag};
use octets::units::Octets;
use octets::variable::{put_unsigned, read_unsigned};

// Reads leaves one after another by `read`, which answers a number and where the next leaf stands: the sum of the numbers, or what
// stands for the first refusal.
fn read_all<F: Fn(&[u8], usize) -> Result<Number, Fault>>(read: F, msg: &[u8], rounds: u64) -> u64
    requires { (lent : _) (at : ℕ) → F.pre read lent at }
{
    let mut at = 0;
    let mut sum = 0;
    for _ in 0..rounds {
        match read(msg, at) {
            Err(f) => return f.cause.number(),
            Ok(n) => {
                sum = std::num::wrapping_add_u64(sum, n.value);
                at = n.next;
            }
        }
    }
    sum
}

// The length of a run, and where the next one stands.
fn length_at(msg: &[u8], at: usize) -> Result<Number, Fault> {
    let run = read_run(msg, at, at)?;
    Ok(Number {
        value: run.length.0,
        next: run.start + run.length.0 as usize,
    })
}

// The number of a tag, and where the next one stands.
fn tag_number_at(msg: &[u8], at: usize) -> Result<Number, Fault> {
    let tag = read_tag(msg, at, at)?;
    Ok(Number {
        value: tag.number,
        next: tag.next,
    })
}

// Reads runs one after another, each behind its length determinant: the sum of their lengths.
#[unsafe(no_mangle)]
pub extern "C" fn leaf_read_lengths(msg: &[u8], rounds: u64) -> u64 {
    read_all(length_at, msg, rounds)
}

// Reads variable-size unsigned numbers one after another: their sum.
#[unsafe(no_mangle)]
pub extern "C" fn leaf_read_numbers(msg: &[u8], rounds: u64) -> u64 {
    read_all(|lent, at| read_unsigned(lent, at, at), msg, rounds)
}

// Reads tags one after another: the sum of their numbers.
#[unsafe(no_mangle)]
pub extern "C" fn leaf_read_tags(msg: &[u8], rounds: u64) -> u64 {
    read_all(tag_number_at, msg, rounds)
}

// Writes words one after another by `put`, which answers where the next one goes: where the last ends.
fn put_all<F: Fn(&mut [u8], usize, u64) -> usize>(put: F, out: &mut [u8], words: &[u64]) -> u64
    requires { (lent : _) (to word : ℕ) → to ≤ 1000000 → F.pre put lent to word }
{
    let mut to = 0;
    for word in words {
        if 1000000 < to {
            return 0;
        }
        to = put(out, to, *word);
    }
    to as u64
}

// Writes the determinants of these lengths one after another: where the last ends.
#[unsafe(no_mangle)]
pub extern "C" fn leaf_put_lengths(out: &mut [u8], words: &[u64]) -> u64 {
    put_all(
        |lent, to, word| put_length(lent, to, Octets(word)),
        out,
        words,
    )
}

// Writes these numbers one after another, each variable-size unsigned.
#[unsafe(no_mangle)]
pub extern "C" fn leaf_put_numbers(out: &mut [u8], words: &[u64]) -> u64 {
    put_all(put_unsigned, out, words)
}

// Writes the context-specific tags of these numbers one after another.
#[unsafe(no_mangle)]
pub extern "C" fn leaf_put_tags(out: &mut [u8], words: &[u64]) -> u64 {
    put_all(
        |lent, to, word| put_tag(lent, to, 2, word % 2097152),
        out,
        words,
    )
}
