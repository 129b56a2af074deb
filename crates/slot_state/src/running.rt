//! A move of a slot that is under way.
use crate::keys::Keys;
use key_slot::MoveNo;
use slot_table::{Epoch, NodeNo};

/// A node's part in a move of a slot.
#[derive(Debug, Drop)]
pub enum Move {
    /// The slot leaves this node, which is MIGRATING it.
    Leaves {
        /// The node that the slot goes to.
        to: NodeNo,
        /// The number of the move.
        number: MoveNo,
        /// How many copies of keys were made, which have the numbers from 1 to this one.
        copies: u64,
        /// The keys whose copy is not acknowledged yet, if there is one.
        frozen: Option<Keys>,
    },
    /// The slot comes to this node, which is IMPORTING it.
    Comes {
        /// The node that the slot comes from.
        from: NodeNo,
        /// The number of the move.
        number: MoveNo,
        /// The number of the last copy that was installed; 0 before the first.
        last: u64,
        /// The epoch of the slot at the other node, once that has no key of the slot left.
        drained: Option<Epoch>,
    },
}
