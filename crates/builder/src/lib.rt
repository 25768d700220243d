// The tables of a scope tree, and the visit of a body that fills them.
#![tactic(auto)]

pub mod tables;
