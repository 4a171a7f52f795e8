// What the programs of the gate share: their input, the lines and numbers of a case file, its tables, lists in print.
#![tactic(auto)]

pub mod input;
pub mod lines;
pub mod numbers;
pub mod show;
pub mod tables;
