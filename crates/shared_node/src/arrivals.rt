//! The slots that arrive at a node by what its clients order.

use cluster_controls::Incident;
use command::{ClusterCommand, Command, SlotOrder, parse};
use key_slot::Slot;
use node_cell::HoldsCell;
use node_step::Event;
use resp_values::Words;
use slot_state::Move;

/// A slot that is coming to a node, and from which one.
#[derive(Clone, Copy)]
pub(crate) struct Arrival {
    slot: Slot,
    from: usize,
}

impl Arrival {
    /// The slot that a node is given, where the event orders that.
    pub(crate) fn slot_given_by(event: &Event) -> Option<Slot> {
        match event {
            Event::Request(_, words) => slot_in(words),
            Event::Open | Event::Close(_) | Event::Deliver(_) | Event::Tick => None,
        }
    }

    /// That of the slot, if it is coming to the node.
    pub(crate) fn of<C: HoldsCell>(cell: &C, slot: Slot) -> Option<Arrival> {
        match cell.core().moves().get(slot)? {
            Move::Comes { from, .. } => Some(Arrival {
                slot,
                from: from.index(),
            }),
            Move::Leaves { .. } => None,
        }
    }

    /// What the witness sees of it, if the slot is the own one of the node of that number now.
    pub(crate) fn incident<C: HoldsCell>(&self, cell: &C, node: usize) -> Option<Incident> {
        let core = cell.core();
        let owner = core.table().owner(self.slot)?;
        if owner.index() != node {
            return None;
        }
        Some(Incident::SlotArrived {
            node,
            slot: self.slot.get(),
            from: self.from,
            keys: core.count_in_slot(self.slot),
        })
    }
}

// The slot that these words give to a node, if they do.
fn slot_in(words: &Words) -> Option<Slot> {
    match parse(words) {
        Ok(command) => slot_of(&command),
        Err(_) => None,
    }
}

fn slot_of(command: &Command<'_>) -> Option<Slot> {
    match command {
        Command::Cluster(command) => given(command),
        Command::Data(_) => None,
    }
}

// The slot of CLUSTER SETSLOT slot NODE node.
fn given(command: &ClusterCommand<'_>) -> Option<Slot> {
    match command {
        ClusterCommand::SetSlot { slot, order, .. } if *order == SlotOrder::Node => Some(*slot),
        _ => None,
    }
}
