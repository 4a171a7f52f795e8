// Writing a message from a value list: one writer serves measuring and encoding. It walks the list (11, then 7, at each node) and stores
// octets where there is room. The writers of SEQUENCE, SEQUENCE OF and CHOICE call each other, the row number falling at each
// descent.
#![tactic(auto)]

pub mod parts;
pub mod value;
