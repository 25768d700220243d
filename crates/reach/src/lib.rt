// What a scope tree is made of, how a body's tree is defined, and the law of reach over its lists.
#![tactic(auto)]

pub mod data;
