//! What a node knows of the owner of a slot.
ghost use Rattle.std.specs.Prelude.{◌≡◌};
ghost use Rattle.slot_table.specs.Claims.{is_above};

use crate::node_no::NodeNo;
use std::marker::Model;

/// The number of a configuration of the cluster: of two claims to a slot that of the greater epoch counts.
#[derive(Clone, Copy, PartialEq, Eq, PartialOrd, Ord, Hash, Debug)]
pub struct Epoch {
    number: u64,
}

impl Model for Epoch {
    ghost use Rattle.std.specs.Prelude.{ℕ};

    ghost Value = { ℕ };

    ghost view = { λ epoch. epoch.number };

    ghost inverse = { λ number. record { number = number } };
}

impl Epoch {
    /// The epoch in which a cluster begins.
    pub const FIRST: Epoch = Epoch { number: 1 };

    /// The epoch of that number.
    pub fn new(number: u64) -> Epoch
        ensures { result ≡ number }
    {
        Epoch { number }
    }

    /// The number.
    pub fn get(self) -> u64
        ensures { result ≡ self }
    {
        self.number
    }
}

/// Who owns a slot, and since which epoch.
#[derive(Clone, Copy, PartialEq, Eq, Debug)]
pub struct SlotEntry {
    /// The epoch of the owner's claim.
    pub epoch: Epoch,
    /// The node that owns the slot.
    pub owner: NodeNo,
}

impl SlotEntry {
    // What all nodes know of the slots of a node as the cluster begins.
    pub(crate) fn at_start(owner: NodeNo) -> SlotEntry
        ensures { result ≡ record { epoch = 1; owner = owner } }
    {
        SlotEntry {
            epoch: Epoch::FIRST,
            owner,
        }
    }

    // Whether a claim to a slot counts above what is known of the slot.
    pub(crate) fn is_above(&self, known: Option<SlotEntry>) -> bool
        ensures { result ≡ is_above self.now known }
    {
        match known {
            None => true,
            Some(known) => {
                known.epoch < self.epoch || known.epoch == self.epoch && known.owner < self.owner
            }
        }
    }
}
