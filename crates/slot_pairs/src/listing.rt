//! What a store has in several slots, in lists by rising key.
ghost use Rattle.std.specs.Prelude.{◌≡◌, filter, IfOk};
ghost use Rattle.std.specs.FinMap as map;
ghost use Rattle.std.specs.Cmp.Lexicographic.{slice_cmp};
ghost use Rattle.std.specs.List.Sorted.{IsPermutation, IsSortedByKey};
ghost use Rattle.std.specs.Ordering.{nat_cmp};
ghost use Rattle.slot_pairs.specs.Several.{is_in_one};

use crate::gathering::{keys_by_slot, pairs_by_slot};
use byte_string::ByteString;
use key_slot::Slot;
use keyspace::Pair;
use slot_store::SlotParts;
use std::alloc::{AllocError, Global};

/// All keys with their values. Long values share their bytes with the store.
pub fn pairs<S: SlotParts>(alloc: Global, store: &S) -> Result<Vec<Pair>, AllocError>
    ensures { IfOk result (λ pairs. pairs.items ≡ map.entries (S.contents store.now)) }
{
    let mut pairs = pairs_by_slot(alloc, store)?;
    sort(&mut pairs);
    Ok(pairs)
}

/// The keys in these slots.
pub fn keys_in_slots<S: SlotParts>(
    alloc: Global,
    store: &S,
    slots: &[Slot],
) -> Result<Vec<ByteString>, AllocError>
    ensures { IfOk result (λ keys. keys.items ≡ filter (is_in_one slots.now) (map.keys (S.contents store.now))) }
{
    let mut keys = keys_by_slot(alloc, store, slots)?;
    keys.sort_unstable();
    // A slot may be listed twice.
    keys.dedup();
    Ok(keys)
}

// Sorts the pairs by their keys.
fn sort(pairs: &mut Vec<Pair>)
    ensures permutation { IsPermutation pairs.old.items pairs.new.items }
    ensures sorted { IsSortedByKey (λ pair. pair.0) (slice_cmp nat_cmp) pairs.new.items }
{
    pairs.sort_unstable_by(|pair, other| pair.key().cmp(other.key()));
}
