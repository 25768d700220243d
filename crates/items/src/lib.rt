// What stands around a body, from a sheet: its items, its constant parameters, and the macro
// expansions that wrote it.
#![tactic(auto)]

mod order;
mod seek;
pub mod sheet;
