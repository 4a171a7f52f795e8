// Readers of the kinds without components. Those of kinds 1 to 6 answer a number and where the next octet stands.
// Those of strings store node and contents, as far as there is room, and answer where the reading then stands. Each
// answers a fault, its cause and place, instead.
#![tactic(auto)]

pub mod bits;
pub mod cursor;
pub mod integer;
pub mod leaf;
pub mod listed;
pub mod plain;
pub mod real;
pub mod text;
pub mod widths;
