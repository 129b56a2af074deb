//! What a store has in several slots, one slot after another.
ghost use Rattle.std.specs.Prelude.{◌≡◌, ◌<◌, filter, IfOk};
ghost use Rattle.std.specs.FinMap as map;
ghost use Rattle.std.specs.List.Sorted.{IsPermutation};
ghost use Rattle.slot_pairs.specs.Several.{HaveSameKeys, is_in_one};

use byte_string::ByteString;
use key_slot::Slot;
use keyspace::Pair;
use slot_store::{Part, SlotParts};
use std::alloc::{AllocError, Global};

/// All keys with their values, slot by slot.
pub(crate) fn pairs_by_slot<S: SlotParts>(alloc: Global, store: &S) -> Result<Vec<Pair>, AllocError>
    ensures { IfOk result (λ pairs. IsPermutation pairs.items (map.entries (S.contents store.now))) }
{
    let mut pairs = Vec::with_capacity(alloc, count(store))?;
    for index in 0..Slot::COUNT {
        store.part(slot_at(index)).push_pairs(&mut pairs)?;
    }
    Ok(pairs)
}

/// The keys in these slots, slot by slot. Those of a slot that is listed twice come twice.
pub(crate) fn keys_by_slot<S: SlotParts>(
    alloc: Global,
    store: &S,
    slots: &[Slot],
) -> Result<Vec<ByteString>, AllocError>
    ensures { IfOk result (λ keys. HaveSameKeys keys.items (filter (is_in_one slots.now) (map.keys (S.contents store.now)))) }
{
    let mut keys = Vec::with_capacity(alloc, count_in(store, slots))?;
    for slot in slots {
        store.part(*slot).push_keys(&mut keys)?;
    }
    Ok(keys)
}

// The number of keys in all slots.
fn count<S: SlotParts>(store: &S) -> usize {
    let mut count: usize = 0;
    for index in 0..Slot::COUNT {
        count = count.saturating_add(store.count_in_slot(slot_at(index)));
    }
    count
}

// The number of keys in these slots.
fn count_in<S: SlotParts>(store: &S, slots: &[Slot]) -> usize {
    let mut count: usize = 0;
    for slot in slots {
        count = count.saturating_add(store.count_in_slot(*slot));
    }
    count
}

fn slot_at(index: usize) -> Slot
    requires { index < 16384 }
    ensures { result ≡ index }
{
    Slot::new(index as u16).unwrap()
}
