//! The nodes of a cluster behind locks, and their clients on sockets.
#![tactic(auto)]

mod accepting;
mod clock;
mod crowd;
mod in_turn;
mod linked;
mod loops;
mod one_client;
mod server;
mod telling;
mod threads;

pub use cluster_controls::{
    Heard, Hearing, Incident, NodeStatus, NodeStop, Orders, Runtime, Shortage, Witness,
};
pub use linked::Linked;
pub use server::{Course, Overseer, RunFault, Times, run_all};
pub use telling::Telling;
