//! The rows of a node's step for commands on keys: which are served, which refused, and which sent to another node.
#![tactic(auto)]

mod commands;
mod decisions;

pub use commands::answer_on_keys;
