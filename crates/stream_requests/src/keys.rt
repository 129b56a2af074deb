//! What is written for keys that come with a copy, and for those that leave with their slots.
ghost use Rattle.std.specs.Prelude.{◌≡◌, nat_eq};
ghost use Rattle.std.specs.Cmp.Lexicographic.{pointwise};
ghost use Rattle.std.specs.List.{list_any};
ghost use Rattle.node_step.specs.Streams.{written_by_pairs};
ghost use Rattle.stream_requests.specs.Spelling.{Spells, clearing, is_there_behind};

use crate::spelling::{append_rebuilding, deletions_bytes};
use byte_string::ByteString;
use key_slot::Slot;
use keyspace::{Pair, Store};
use slot_pairs::keys_in_slots;
use slot_store::SlotParts;
use std::alloc::{AllocError, Global};

/// The requests that make all keys of a copy in a store, one after another, each behind the deletion of what is there.
pub fn installed_bytes<S: Store>(
    alloc: Global,
    store: &S,
    pairs: &[Pair],
) -> Result<Vec<u8>, AllocError>
    ensures { Spells result (written_by_pairs (S.contents store.now) pairs.now) }
{
    let mut bytes = Vec::new(alloc);
    for place in 0..pairs.len() {
        let pair = &pairs[place];
        let is_there = is_there_behind(store, &pairs[..place], pair.key());
        append_rebuilding(pair.key(), pair.value(), is_there, &mut bytes)?;
    }
    Ok(bytes)
}

// Whether the key is there once these pairs are.
fn is_there_behind<S: Store>(store: &S, pairs: &[Pair], key: &ByteString) -> bool
    ensures { result ≡ is_there_behind (S.contents store.now) pairs.now key.now }
{
    store.get(key).is_some() || has_key(pairs, key)
}

// Whether one of the pairs is at the key.
fn has_key(pairs: &[Pair], key: &ByteString) -> bool
    ensures { result ≡ list_any (λ pair. pointwise nat_eq pair.0 key.now) pairs.now }
{
    pairs.iter().any(|pair| pair.key() == key)
}

/// The deletions of all keys that a store has in these slots.
pub fn cleared_bytes<S: SlotParts>(
    alloc: Global,
    store: &S,
    slots: &[Slot],
) -> Result<Vec<u8>, AllocError>
    ensures { Spells result (clearing (S.contents store.now) slots.now) }
{
    let keys = keys_in_slots(alloc, store, slots)?;
    deletions_bytes(alloc, keys.as_slice())
}
