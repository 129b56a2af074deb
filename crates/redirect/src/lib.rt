//! What a node does with a command: it serves it, refuses it, or names the node to ask.
#![tactic(auto)]

mod asked;
mod decision;

pub use asked::Asking;
pub use decision::{Decision, Reason, decide, decide_at_rest, decide_in_slot};
