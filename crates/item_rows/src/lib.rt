// The records of an item sheet: what they are sorted by, what the bytes write, and what a sheet is
// refused for.
#![tactic(auto)]

pub mod key;
mod records;
pub mod rows;
pub mod tables;
