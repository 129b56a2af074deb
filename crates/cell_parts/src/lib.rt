//! What a node with its journal is made of: where the journal goes, the replies that wait, and what marks the cluster.
#![tactic(auto)]

mod delivery;
mod deployment;
mod entry;
mod log;
mod undelivered;

pub use delivery::DeliveryFault;
pub use deployment::Deployment;
pub use entry::Entry;
pub use log::{GhostJournal, Journal, Log};
pub use undelivered::{add_released, has_some, take_reply_to};
