//! How the threads of connections reach a node, whichever node it is.
#![tactic(auto)]

mod gate;

pub use gate::{Answered, NodeGate};
