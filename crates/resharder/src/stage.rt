//! What a run waits for.

use crate::migration::Migration;
use crate::nodes::Nodes;
use key_slot::{MoveNo, Slot};
use redirection::Address;

/// What a run waits for.
#[derive(Drop)]
pub(crate) enum Stage {
    /// The event by which it begins.
    Begins,
    /// The reply that lists the masters.
    Finds,
    /// A reply about a slot.
    Works(Work),
    /// That the line of the slot is printed.
    Prints { nodes: Nodes, slot: Slot },
    /// Nothing: it is over.
    Over,
}

/// The work at a slot.
#[derive(Drop)]
pub(crate) struct Work {
    /// The nodes to be asked.
    pub nodes: Nodes,
    /// The slot.
    pub slot: Slot,
    /// The number of the move, once it is known, where there is one.
    pub number: Option<MoveNo>,
    /// How many keys were moved in this run.
    pub keys: u64,
    /// How often the request may still be repeated.
    pub repeats: u64,
    /// What was asked.
    pub step: Step,
}

/// What was asked about a slot.
#[derive(Drop)]
pub(crate) enum Step {
    /// What the source does with the slot.
    ReadsSource,
    /// What the destination does with it.
    ReadsDestination(Source),
    /// That it comes to the destination.
    Imports,
    /// That it leaves the source.
    Migrates,
    /// Which keys of it are left at the source.
    ListsKeys,
    /// That these keys are moved.
    MovesKeys(Migration),
    /// That the destination owns the slot from now on.
    EndsAtDestination,
    /// That the source knows it.
    EndsAtSource,
    /// That another master knows it.
    EndsAtOther {
        /// Where that is reached.
        at: Address,
        /// The place of the next one.
        next: usize,
    },
}

/// What the source reported of a slot.
#[derive(Clone, Copy)]
pub(crate) struct Source {
    /// The number of the move by which the slot leaves it for the destination.
    pub number: Option<MoveNo>,
    /// The greatest number of a move of the slot in which it took part, or 0.
    pub last: u64,
}
