// The frame of a sheet: how its numbers are read, its sections as parts of the caller's bytes, and
// what a sheet can be refused for.
#![tactic(auto)]

pub mod bytes;
pub mod fault;
mod frame;
pub mod section;
pub mod sheet_format;
pub mod split;
