//! The rows of a node's step for streams: what a step writes for the node's replicas, and what replicas and masters tell each other.
#![tactic(auto)]

mod adding;
mod following;
mod pieces;
mod syncs;
mod writes;

pub use adding::{add_request, add_written};
pub use following::{take_piece, take_snapshot};
pub use syncs::{answer_sync, append_sync};
