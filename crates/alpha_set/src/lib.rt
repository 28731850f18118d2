//! Nodes of a controller: each an alpha-vector with a mix of own actions and the steps that follow, kept in a set.
#![tactic(auto)]

mod laws;
mod lifts;
mod nodes;
mod sets;
mod stages;
mod stands;
mod tables;
mod worth;

pub use game_model::Branch as Step;
pub use laws::{law_raised, law_renamed, law_worth};
pub use nodes::Node;
pub use sets::{MOST_NODES, NodeSet, PushFault};
