//! What a cluster consists of from its start.
#![tactic(auto)]

mod config;
mod names;

pub use config::{Config, NodeConfig, Role, SlotRanges};
pub use names::{Host, NodeId, is_id};
