//! What `rcluster cli`, `rcluster reshard` and `rcluster failover` do: commands on a cluster, slots that move from one of its masters to
//! another, and a replica that takes the place of its master.
#![tactic(auto)]

mod calling;
mod conversing;
mod finding;
mod handing_over;
mod moving;
mod node_names;
mod questions;
mod resharding;
mod slot_map;
mod slot_report;

pub use calling::{Request, call};
pub use handing_over::{Handover, hand_over};
pub use resharding::{Move, reshard};
