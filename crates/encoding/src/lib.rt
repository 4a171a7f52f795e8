// Measure and encode: the public operations on a value list, over the writers of `writing`.
#![tactic(auto)]

pub mod lists;
pub mod operations;
