// Validate and decode: the public operations on a message, over the readers of `reading`.
#![tactic(auto)]

pub mod operations;
