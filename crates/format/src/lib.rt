// What a body is written with: its numbers, the kinds of node, and the record of a node.
#![tactic(auto)]

pub mod ids;
pub mod kind;
pub mod kind_rules;
pub mod node_id;
pub mod record;
