// The scope tree of a body: which names are in scope at each of its expressions.
#![tactic(auto)]

pub mod entry_test;
pub mod refusal;
pub mod tables;
