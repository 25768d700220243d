// What a name means: the first declaration that a look-up outward comes to.
#![tactic(auto)]

mod context;
mod entries;
mod outside;
pub mod outward;
pub mod resolution;
pub mod resolver;
pub mod sought;
pub mod uses;
