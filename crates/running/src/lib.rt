// The case files of the gate's programs (docs/FORMATS.md), run: each case's numbers are read, its buffers of 7s lent,
// its operations called, and replies and buffers printed.
#![tactic(auto)]

pub mod edits;
pub mod lists;
pub mod messages;
pub mod print;
pub mod run;
pub mod settings;

// The most that a case has of each (docs/FORMATS.md).
const MOST_OCTETS: usize = 66000;

const MOST_NODE_WORDS: usize = 9000;

const MOST_STEPS: usize = 32;

const MOST_FALLBACK: usize = 32;
