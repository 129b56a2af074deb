//! The hash slot of a key: which of the 16384 parts of the keyspace the key belongs to.
#![tactic(auto)]

mod crc16_table;
mod hash_slot;
mod move_no;
mod slots;

pub use hash_slot::{slot, tag};
pub use move_no::MoveNo;
pub use slots::{Slot, SlotRange};
