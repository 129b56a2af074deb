//! Slots whose keys leave at once.
ghost use Rattle.std.specs.Prelude.{◌≡◌};
ghost use Rattle.node_parts.specs.Becomes.{without_slots};

use key_slot::Slot;
use slot_store::SlotParts;

/// Removes all keys of these slots.
pub(crate) fn clear_slots<S: SlotParts>(store: &mut S, slots: &[Slot])
    ensures { S.contents store.new ≡ without_slots (S.contents store.old) slots.now }
{
    for slot in slots {
        store.clear_slot(*slot);
    }
}
