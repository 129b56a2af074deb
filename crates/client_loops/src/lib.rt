//! Threads that each serve many clients of a node in turn.
#![tactic(auto)]

mod client_loop;
mod inbox;
mod lingering;
mod loop_client;
mod poller;
mod register;

pub use client_loop::serve_clients;
pub use inbox::{Inbox, InboxFault, NewClient};
pub use lingering::{Lingering, is_told};
pub use poller::{Poller, PollerFault};
pub use register::Register;
