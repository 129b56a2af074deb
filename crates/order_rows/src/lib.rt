//! The rows of a node's step for orders that begin and end moves of slots, and the nodes that orders name.
#![tactic(auto)]

mod nodes;
mod orders;

pub use nodes::{node_at, node_with_id};
pub use orders::obey;
