//! Nodes follow streams, and a promoted node goes on from the stream of its master.
#![tactic(auto)]

mod law;

pub use law::{nodes_follow_their_streams, promoted_nodes_go_on};
