// Check, validate and decode, exported so that a Rust program can count their instructions beside those of its own
// (bench/reading). Nothing else uses them; they have no contracts of their own, and hand on what the operations answer.
#![tactic(auto)]

use decoding::operations::{decode, validate};
use table::check::check;
use table::reply::Reply;

// Number, nodes and octets in one word; part and place are dropped. A number is at most 13, nodes are at most 4,096 and octets at
// most 65,535, so none runs into another.
fn word_of(r: Reply) -> u64 {
    let counts = std::num::wrapping_add_u64(r.nodes << 24, r.octets);
    std::num::wrapping_add_u64(r.number << 48, counts)
}

// The number of the reply.
#[unsafe(no_mangle)]
pub extern "C" fn read_check(rows: &[u64], items: &[u64]) -> u64 {
    let r = check(rows, items);
    r.number
}

// The reply as a word.
#[unsafe(no_mangle)]
pub extern "C" fn read_validate(rows: &[u64], items: &[u64], row: u64, msg: &[u8]) -> u64 {
    let r = validate(rows, items, row, msg);
    word_of(r)
}

// The reply as a word; the value list in the buffers.
#[unsafe(no_mangle)]
pub extern "C" fn read_decode(
    rows: &[u64],
    items: &[u64],
    row: u64,
    msg: &[u8],
    nodes: &mut [u64],
    contents: &mut [u8],
) -> u64 {
    let r = decode(rows, items, row, msg, nodes, contents);
    word_of(r)
}
