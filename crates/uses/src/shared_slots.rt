//! Keys with one hash tag are in one slot.
ghost use Rattle.std.specs.Prelude.{◌≡◌, ◌↔◌, IfSome, IsSome};
ghost use Rattle.key_slot.specs.HashTag.{hash_tag};
ghost use Rattle.key_slot.specs.Slot.{IsSlotOf};

use key_slot::{Slot, slot, tag};

/// The slot of both keys, if their tags are one: a command may then name both. It computes one checksum.
pub fn shared_slot(first: &[u8], second: &[u8]) -> Option<Slot>
    ensures both { IfSome result (λ slot. IsSlotOf first.now slot × IsSlotOf second.now slot) }
    ensures some { IsSome result ↔ (hash_tag first.now ≡ hash_tag second.now) }
{
    if tag(first) == tag(second) {
        Some(slot(first))
    } else {
        None
    }
}
