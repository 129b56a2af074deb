//! What a store has in a slot: its keys, and a store of their own, which is read and changed apart.
ghost use Rattle.std.specs.Prelude.{◌≡◌, ◌<◌, ◌^◌, IfOk, OnOk, OnErr, take};
ghost use Rattle.std.specs.FinMap as map;
ghost use Rattle.keyspace.specs.Plan.{committed};
ghost use Rattle.slot_store.specs.InSlot.{in_slot, outside_slot, IsCommittedInSlot, LiesInSlot};

use crate::part::Part;
use byte_string::ByteString;
use key_slot::Slot;
use keyspace::{Plan, Store};
use std::alloc::{AllocError, Global};

/// A store that has the keys of each slot apart, so that who knows the slot of a key needs not compute it again.
pub trait SlotParts: Store {
    /// What the store has in one slot.
    type Part: Part;

    /// The number of keys in the slot.
    fn count_in_slot(&self, slot: Slot) -> usize
        ensures count { result ≡ map.len (in_slot slot (Self.contents self.now)) }
        ensures below { result < 2 ^ 63 };

    /// The first keys in the slot, at most `count`, in their byte order.
    fn keys_in_slot(
        &self,
        alloc: Global,
        slot: Slot,
        count: usize,
    ) -> Result<Vec<ByteString>, AllocError>
        ensures { IfOk result (λ found. found.items ≡ take count (map.keys (in_slot slot (Self.contents self.now)))) };

    /// What the store has in the slot.
    fn part(&self, slot: Slot) -> &Self::Part
        ensures { Self.Part.contents result.now ≡ in_slot slot (Self.contents self.now) };

    /// Makes all changes of the plan in the slot, or none where an allocation fails.
    fn commit_in_slot(&mut self, alloc: Global, slot: Slot, plan: Plan) -> Result<(), AllocError>
        requires { LiesInSlot slot (committed (in_slot slot (Self.contents self.old)) plan) }
        ensures ok { OnOk result (IsCommittedInSlot slot plan (Self.contents self.old) (Self.contents self.new)) }
        ensures err { OnErr result (Self.contents self.new ≡ Self.contents self.old) };

    /// Removes all keys of the slot, and none of another. It takes no memory.
    fn clear_slot(&mut self, slot: Slot)
        ensures { Self.contents self.new ≡ outside_slot slot (Self.contents self.old) };
}
