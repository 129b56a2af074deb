//! Whose turn it is: the keys of those who wait, each once.
#![tactic(auto)]

mod turn_queue;

pub use turn_queue::TurnQueue;
