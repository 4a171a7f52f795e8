// Writers of the kinds without components, 1 to 9. Each checks its node of the value list (11, then 7), stores the
// octets of its value as far as there is room, and answers where the walk then stands, or the fault with its place.
#![tactic(auto)]

pub mod bits;
pub mod head;
pub mod integer;
pub mod leaf;
pub mod listed;
pub mod pen;
pub mod plain;
pub mod real;
pub mod text;
