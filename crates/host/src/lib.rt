// What stands around a body: its items, its constant parameters, and the macros that wrote it.
#![tactic(auto)]

pub mod hosts;
pub mod item;
mod names;
pub mod no_macros;
pub mod prelude;
#[cfg(test)]
mod tests;
