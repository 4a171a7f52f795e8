// What the readers read, and where it ends.
use crate::units::{Occurrences, Octets};

// A run of octets in the message.
#[derive(Clone, Copy)]
pub struct Piece {
    pub start: usize,
    pub length: Octets,
}

// A number, and where the octets after it begin.
#[derive(Clone, Copy)]
pub struct Number {
    pub value: u64,
    pub next: usize,
}

// A quantity, and where its occurrences begin.
#[derive(Clone, Copy)]
pub struct Quantity {
    pub many: Occurrences,
    pub next: usize,
}

// A tag, and where the alternative's octets begin. Its number stops at 2,097,152, which is in no table.
#[derive(Clone, Copy)]
pub struct Tag {
    pub class: u64,
    pub number: u64,
    pub next: usize,
}
