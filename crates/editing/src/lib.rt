// Editing a message at a path: the octets around the component are copied, its own are written anew, and at most its
// presence bit changes. No value list of the whole is built.
#![tactic(auto)]

pub mod operations;
pub mod splicing;
