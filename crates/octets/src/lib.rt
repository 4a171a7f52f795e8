// The leaves of all other code: numbers, determinants, tags, presence bits, strings and nodes, read and written.
// A reader takes the message, where it reads and the place of a refusal; it answers what it read, or the fault: its cause and place.
// A writer stores octets from a place on, skips what does not fit, and answers where the next octet goes: on an empty buffer it only
// measures.
#![tactic(auto)]

pub mod answers;
pub mod enumerated;
pub mod faults;
pub mod fewest;
pub mod lengths;
pub mod nodes;
pub mod numbers;
pub mod presence;
pub mod strings;
pub mod tags;
pub mod units;
pub mod variable;
pub mod words;
