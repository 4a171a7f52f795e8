// Reading a message: one reader serves validation and decoding. It stores nodes and contents where there is room and skips
// what does not fit. The readers of SEQUENCE, SEQUENCE OF and CHOICE call each other, the row number falling at each
// descent.
#![tactic(auto)]

pub mod parts;
pub mod tags;
pub mod value;
