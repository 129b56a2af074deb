//! The rows of a node's step for failures, votes and elections.
#![tactic(auto)]

mod promotion;
mod signs;
mod votes;

pub use promotion::{promote, promote_by_plan};
pub use signs::append_signs;
pub use votes::{append_requests, write_vote};
