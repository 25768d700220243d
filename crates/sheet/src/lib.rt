// The body sheet read into tables: which bytes are accepted, and what the tables then hold.
#![tactic(auto)]

pub mod body;
mod children;
mod claims;
mod draft;
mod names;
pub mod node;
mod nodes;
mod place;
mod tree;
