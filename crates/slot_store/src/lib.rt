//! A store with a map for each slot: a look-up goes over few keys, and the keys of a slot are counted without a scan.
#![tactic(auto)]

mod part;
mod slot_parts;
mod store;

pub use part::Part;
pub use slot_parts::SlotParts;
pub use store::SlotStore;
