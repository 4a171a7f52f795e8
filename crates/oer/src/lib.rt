// The public operations. None asks anything of its caller: each checks its table, its row and all it is lent.
#![tactic(auto)]

pub mod operations;
