//! Whether two messages of nodes are the same, in all that they say.
#![tactic(auto)]

mod same;

pub use same::is_same_message;
