//! What a run is told, and what it wants done.

use crate::fault::ReshardFault;
use key_slot::{MoveNo, Slot};
use redirection::Address;
use resp_values::{Reply, Words};

/// What a run is told.
#[derive(Drop)]
pub enum Event {
    /// The run begins; or, after [`Action::Line`], the line is printed, and the run goes on.
    Start,
    /// The reply to the words of the last [`Action::Ask`].
    Reply(Reply),
    /// No reply came to them: the node at the address can't be reached, or the connection to it failed or ended, or the
    /// bytes that came are no reply.
    NotReached,
    /// Memory was refused for what the last action wants.
    NoMemory,
}

/// What a run wants done.
#[derive(Drop)]
pub enum Action {
    /// The words are to be sent to the node at the address, and one reply is to be read there.
    Ask {
        /// Where the node is reached.
        to: Address,
        /// The words.
        words: Words,
    },
    /// The slot is at its new master, which is to be printed.
    Line {
        /// The slot.
        slot: Slot,
        /// The number of the move. There is none where the slot was there before any move of it.
        number: Option<MoveNo>,
        /// How many keys were moved in this run: those that are named in the orders to move keys that were obeyed.
        keys: u64,
    },
    /// The run is over: it can't go on.
    Fault(ReshardFault),
    /// The run is over: all slots are at their new master.
    End,
}
