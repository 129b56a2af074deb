//! The nodes of a cluster as its threads share them: each behind its lock, the way of a conversation to its node, and the messages that are
//! carried between the nodes.
#![tactic(auto)]

mod arrivals;
mod carrying;
mod changes;
mod gate;
mod node;
mod seeing_gate;
mod served;
mod shared;
mod status;

pub use carrying::carry;
pub use gate::Gate;
pub use node::Node;
pub use seeing_gate::{Mail, SeeingGate};
pub use served::SharedCluster;
pub use shared::SharedNode;
pub use status::ClusterStatus;
