//! Slots that leave, and of which no key is left.
ghost use Rattle.std.specs.Prelude.{◌≡◌};
ghost use Rattle.node_parts.specs.Drafts.{bodies_of};
ghost use Rattle.node_step.specs.Slots.{drained, drained_if_empty, slot_epoch};

use crate::parts::NodeParts;
use bus::{Body, SlotsBody};
use key_slot::Slot;
use repl_stream::Stream;
use slot_state::Move;
use slot_store::SlotParts;
use slot_table::{Epoch, NodeNo};

impl<S: SlotParts, T: Stream> NodeParts<S, T> {
    /// The epoch of the slot in the table; 0 of a slot without an owner.
    pub fn slot_epoch(&self, slot: Slot) -> Epoch
        ensures { result ≡ slot_epoch self.now slot }
    {
        match self.table.entry(slot) {
            Some(entry) => entry.epoch,
            None => Epoch::new(0),
        }
    }

    /// Where the slot leaves: the word that none of its keys is left, and the node that it is for.
    pub fn drained(&self, slot: Slot) -> Option<(NodeNo, Body)>
        ensures { bodies_of result ≡ drained self.now slot }
    {
        match self.moves.get(slot) {
            Some(Move::Leaves { to, number, .. }) => {
                let epoch = self.slot_epoch(slot);
                let body = Body::Slots(SlotsBody::Drained {
                    slot,
                    number: *number,
                    epoch,
                });
                Some((*to, body))
            }
            _ => None,
        }
    }

    /// The same where none is left.
    pub fn drained_if_empty(&self, slot: Slot) -> Option<(NodeNo, Body)>
        ensures { bodies_of result ≡ drained_if_empty self.now slot }
    {
        if self.store.count_in_slot(slot) > 0 {
            return None;
        }
        self.drained(slot)
    }
}
