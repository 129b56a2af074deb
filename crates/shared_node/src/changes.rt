//! What messages of other nodes change in a node.

use cluster_controls::{Incident, Witness};
use key_slot::Slot;
use link_ends::Act;
use node_cell::{HasLinks, HoldsCell};
use slot_state::Move;
use std::alloc::Global;
use std::rt::Clock;
use std::sync::Wait;

// How many acts are told at once. Where there are more, they are told with the next message.
const MOST_ACTS: u32 = 1024;

/// Has the witness see each slot that leaves the node of that number, that the node hands its slots over, that it noted what its master
/// hands over, and that it is promoted. Where nobody listens it looks at nothing but that.
///
/// All of this happens by a message, so it looks before each one and behind it, under one hold of the node's lock. A slot for which it has
/// no memory isn't seen.
#[derive(Drop)]
pub(crate) struct Changes<'w> {
    witness: &'w Witness,
    node: usize,
    // The slots that were on their way before the message.
    leaving: Vec<Leaving>,
    // What the node had done before it.
    before: Part,
}

// A node's part in handovers and elections.
#[derive(Clone, Copy)]
struct Part {
    // It hands its slots over to a replica.
    hands_over: bool,
    // It noted what its master hands over.
    has_noted: bool,
    // Its master hands over for the election that it began last.
    is_planned: bool,
    // It took the place of its master.
    is_promoted: bool,
}

impl Part {
    // None.
    fn none() -> Part {
        Part {
            hands_over: false,
            has_noted: false,
            is_planned: false,
            is_promoted: false,
        }
    }

    // That of the node with this cell.
    fn of<C: HoldsCell>(cell: &C) -> Part {
        let core = cell.core();
        Part {
            hands_over: core.paused().is_some(),
            has_noted: core.noted().is_some(),
            is_planned: core.is_election_planned(),
            is_promoted: core.replaced().is_some(),
        }
    }
}

// A slot that is on its way to another node, and how many of its keys the node holds.
#[derive(Clone, Copy)]
struct Leaving {
    slot: Slot,
    keys: usize,
}

impl<'w> Changes<'w> {
    /// Those in the node of that number.
    pub(crate) fn new(alloc: Global, witness: &'w Witness, node: usize) -> Changes<'w> {
        Changes {
            witness,
            node,
            leaving: Vec::new(alloc),
            before: Part::none(),
        }
    }

    /// Looks at the node before it takes a message.
    pub(crate) fn look<C: HoldsCell>(&mut self, cell: &C) {
        if self.witness.wants_all() {
            self.leaving.clear();
            note_all(cell, &mut self.leaving);
            self.before = Part::of(cell);
        }
    }

    /// Has the witness see those of the slots that are another node's now, and what else the node came to do by the message.
    pub(crate) fn tell<C: HoldsCell, R: Clock + Wait>(&self, rt: &R, cell: &C) {
        if !self.witness.wants_all() {
            return;
        }
        for leaving in self.leaving.iter() {
            self.tell_of(rt, cell, *leaving);
        }
        if !self.before.hands_over {
            self.tell_of_pause(rt, cell);
        }
        if !self.before.has_noted {
            self.tell_of_note(rt, cell);
        }
        if !self.before.is_promoted {
            self.tell_of_promotion(rt, cell);
        }
    }

    /// Has the witness see what a bad network did to messages of that other node, where it didn't let them pass.
    pub(crate) fn tell_acts<C: HasLinks<R>, R: Clock + Wait>(
        &self,
        rt: &R,
        cell: &mut C,
        from: usize,
    ) {
        if !self.witness.wants_all() {
            return;
        }
        for _ in 0..MOST_ACTS {
            let Some(act) = cell.tell_act(from) else {
                return;
            };
            if act != Act::Pass {
                let node = self.node;
                self.witness.see(rt, Incident::ActDone { node, from, act });
            }
        }
    }

    fn tell_of_pause<C: HoldsCell, R: Clock + Wait>(&self, rt: &R, cell: &C) {
        let core = cell.core();
        if let Some(replica) = core.paused() {
            let begun = Incident::HandoverBegun {
                node: self.node,
                replica: replica.index(),
                offset: core.received(),
            };
            self.witness.see(rt, begun);
        }
    }

    fn tell_of_note<C: HoldsCell, R: Clock + Wait>(&self, rt: &R, cell: &C) {
        let core = cell.core();
        if let Some(handing) = core.noted()
            && let Some(master) = core.own_master()
        {
            let noted = Incident::HandoverNoted {
                node: self.node,
                master: master.index(),
                offset: handing.offset,
                received: core.received(),
            };
            self.witness.see(rt, noted);
        }
    }

    // The vote by which a node is promoted changes nothing of what its election is for.
    fn tell_of_promotion<C: HoldsCell, R: Clock + Wait>(&self, rt: &R, cell: &C) {
        if let Some(replaced) = cell.core().replaced() {
            let promoted = Incident::Promoted {
                node: self.node,
                master: replaced.master.index(),
                epoch: replaced.stream.epoch.get(),
                offset: replaced.offset,
                is_planned: self.before.is_planned,
            };
            self.witness.see(rt, promoted);
        }
    }

    fn tell_of<C: HoldsCell, R: Clock + Wait>(&self, rt: &R, cell: &C, leaving: Leaving) {
        if let Some(to) = gone_to(cell, leaving.slot, self.node) {
            let left = Incident::SlotLeft {
                node: self.node,
                slot: leaving.slot.get(),
                to,
                deleted: leaving.keys,
            };
            self.witness.see(rt, left);
        }
    }
}

// Notes the slots that are on their way from the node, as far as there is memory.
fn note_all<C: HoldsCell>(cell: &C, leaving: &mut Vec<Leaving>) {
    let core = cell.core();
    for (slot, running) in core.moves().iter() {
        if matches!(running, Move::Leaves { .. }) {
            let keys = core.count_in_slot(*slot);
            let _noted = leaving.push(Leaving { slot: *slot, keys });
        }
    }
}

// The owner of the slot, if that isn't the node of that number.
fn gone_to<C: HoldsCell>(cell: &C, slot: Slot, node: usize) -> Option<usize> {
    let owner = cell.core().table().owner(slot)?.index();
    if owner == node {
        return None;
    }
    Some(owner)
}
