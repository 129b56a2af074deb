//! The rows of a node's step for planned handovers: a replica asks its master to hand over, the master tells what it hands over, and
//! the replica notes it.
#![tactic(auto)]

mod asking;
mod handing;
mod noting;

pub use asking::{append_pause, ask_master};
pub use handing::{append_paused, hand_over};
pub use noting::note_handing;
