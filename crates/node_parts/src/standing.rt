//! What a node knows of itself, of a slot, and of who copies whom.
ghost use Rattle.std.specs.Option.{option_copied};
ghost use Rattle.std.specs.Prelude.{◌≡◌, None, is_some, slice_index_or};
ghost use Rattle.node_step.specs.Handovers.{may_take_over};
ghost use Rattle.node_step.specs.Roles.{is_just};
ghost use Rattle.node_step.specs.State.{own_master, standing};
ghost use Rattle.node_parts.specs.Noting.{handing_at_end};

use crate::parts::NodeParts;
use bus::Handing;
use key_slot::Slot;
use repl_stream::Stream;
use slot_state::Standing;
use slot_store::SlotParts;
use slot_table::NodeNo;

impl<S: SlotParts, T: Stream> NodeParts<S, T> {
    /// What bears on an order to move the slot.
    pub fn standing(&self, slot: Slot) -> Standing
        ensures { result ≡ standing self.now slot }
    {
        Standing {
            node: self.number,
            is_replica: self.is_replica(),
            is_paused: self.is_paused(),
            owner: self.table.owner(slot),
        }
    }

    /// The node's master, if it is a replica.
    pub fn own_master(&self) -> Option<NodeNo>
        ensures { result ≡ own_master self.now }
    {
        self.master_of(self.number)
    }

    /// Whether it is one.
    pub fn is_replica(&self) -> bool
        ensures { result ≡ is_some (own_master self.now) }
    {
        self.own_master().is_some()
    }

    /// Whether it hands its slots over to a replica.
    #[inline(always)]
    pub fn is_paused(&self) -> bool
        ensures { result ≡ is_some self.now.paused }
    {
        self.paused.is_some()
    }

    /// Whether the node may take the place of its master, which hands over: it is a replica, and has all of the master's stream.
    pub fn may_take_over(&self) -> bool
        ensures { result ≡ may_take_over self.now }
    {
        self.is_replica() && self.handed_over().is_some()
    }

    /// What the master hands over, if the node has all of its stream, and no begun write.
    pub fn handed_over(&self) -> Option<&Handing>
        ensures { option_copied result ≡ handing_at_end self.now }
    {
        let handing = self.note.as_ref()?;
        let is_at_end = handing.stream == self.stream.id()
            && handing.offset == self.stream.offset()
            && self.stream.is_whole();
        if is_at_end { Some(handing) } else { None }
    }

    /// Whether the node of that number copies this one.
    pub fn has_replica(&self, number: NodeNo) -> bool
        ensures { result ≡ is_just (slice_index_or self.now.masters number None) self.now.number }
    {
        self.master_of(number) == Some(self.number)
    }
}
