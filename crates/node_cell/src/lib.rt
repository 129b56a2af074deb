//! A node with its journal: each step draws one ticket and is entered once.
#![tactic(auto)]

mod admission;
mod asks;
mod cell;
mod entered;
mod holder;
mod linked;
mod posted;

pub use admission::Admission;
pub use asks::Asks;
pub use cell::NodeCell;
pub use cell_parts::{DeliveryFault, Deployment, Entry, GhostJournal, Journal, Log};
pub use entered::Entered;
pub use holder::HoldsCell;
pub use linked::{HasLinks, Taken};
pub use node_gate::{Answered, NodeGate};
pub use posted::{Posted, Sending};
