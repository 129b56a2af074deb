//! Moving slots from one master to another: what is to be asked of which node, and a run that asks it.
#![tactic(auto)]

mod action;
mod answer;
mod asking;
mod deciding;
mod fault;
mod fitting;
mod key;
mod masters;
mod migration;
mod moved_slot;
mod nodes;
mod order;
mod plan;
mod report;
mod reshard_core;
mod resharder;
mod stage;

pub use action::{Action, Event};
pub use fault::ReshardFault;
pub use masters::{ENTRY_LEN, address_at};
pub use moved_slot::MovedSlot;
pub use plan::Plan;
pub use reshard_core::ReshardCore;
pub use resharder::Resharder;
