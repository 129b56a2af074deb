//! What stands behind a node's stream for what the node does, as the bytes of requests.
#![tactic(auto)]

mod keys;
mod spelling;

pub use keys::{cleared_bytes, installed_bytes};
pub use spelling::{deletions_bytes, request_bytes};
