// The type table: its words by name, its check, and each row's nesting worked out once.
#![tactic(auto)]

pub mod bounds;
pub mod check;
pub mod component;
pub mod groups;
pub mod kind;
pub mod nestings;
pub mod numbers;
pub mod reply;
pub mod rules;
pub mod search;
pub mod sound;
pub mod words;
