//! Which copy of keys that is, on their way with their slot.

use key_slot::{MoveNo, Slot};

/// Which copy of keys that is.
#[derive(Clone, Copy, PartialEq, Eq, Debug)]
pub struct CopyId {
    /// The slot of the keys.
    pub slot: Slot,
    /// The number of the move of the slot.
    pub number: MoveNo,
    /// The number of the copy in this move, from 1 on.
    pub copy: u64,
}
