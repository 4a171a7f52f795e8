// Measure and encode, exported so that a Rust program can count their instructions beside those of its own (bench/writing). Nothing
// else uses them; they have no contracts of their own, and hand on what the operations answer.
#![tactic(auto)]

use encoding::operations::{encode, measure};
use table::reply::Reply;

// Number and octets in one word; part and place are dropped. A number is at most 13 and octets are at most 65,535, so neither runs
// into the other.
fn word_of(r: Reply) -> u64 {
    std::num::wrapping_add_u64(r.number << 48, r.octets)
}

// The reply as a word.
#[unsafe(no_mangle)]
pub extern "C" fn write_measure(
    rows: &[u64],
    items: &[u64],
    row: u64,
    nodes: &[u64],
    contents: &[u8],
) -> u64 {
    let r = measure(rows, items, row, nodes, contents);
    word_of(r)
}

// The reply as a word; the octets in the buffer.
#[unsafe(no_mangle)]
pub extern "C" fn write_encode(
    rows: &[u64],
    items: &[u64],
    row: u64,
    nodes: &[u64],
    contents: &[u8],
    out: &mut [u8],
) -> u64 {
    let r = encode(rows, items, row, nodes, contents, out);
    word_of(r)
}
