//! A store with a map for each slot.
ghost use Rattle.std.specs.Prelude.{◌≡◌, IfOk, take};
ghost use Rattle.std.specs.FinMap as map;
ghost use Rattle.key_map.specs.KeyMap.{keys, IsOrdered};

use crate::slot_parts::SlotParts;
use byte_string::ByteString;
use key_slot::{Slot, slot};
use keyspace::{FieldChanges, Plan, Store, TreeStore, Value, append_in, change_fields_in, commit};
use std::alloc::{AllocError, Global};
use std::marker::Model;

/// Keys and values, those of each slot in a map of their own, in the byte order of the keys.
pub struct SlotStore {
    // One map for each slot, at the slot's number. A key lies in the map of its slot.
    maps: Vec<TreeStore>,
}

impl Model for SlotStore {
    ghost use Rattle.std.specs.Prelude.{◌≡◌, ℕ, length};
    ghost use Rattle.std.specs.Coded.{codes, coded_list, coded_ℕ};
    ghost use Rattle.std.specs.Ordering.{nat_cmp};
    ghost use Rattle.std.specs.Cmp.Lexicographic.{slice_cmp};
    ghost use Rattle.std.specs.FinMap as map;
    ghost use Rattle.keyspace.specs.Keyspace.{Keyspace};
    ghost use Rattle.slot_store.specs.Maps.{all_entries, ArePlaced};

    ghost Value = { Keyspace };

    ghost coded = { map.code {R = slice_cmp nat_cmp} (coded_list coded_ℕ) (Prim.hlevel codes) };

    ghost view = { λ store. map.from_entries (all_entries store.maps.items) };

    ghost invariant = { λ store. (length store.maps.items ≡ 16384) × ArePlaced store.maps.items };
}

impl Drop for SlotStore {
    fn drop(self) {
        let SlotStore { maps: _ } = self;
    }
}

impl SlotStore {
    /// A store with no keys. All maps are made at once, and none of them allocates before its first key.
    pub fn new(alloc: Global) -> Result<SlotStore, AllocError>
        ensures { IfOk result (λ store. store ≡ map.empty) }
    {
        let mut maps = Vec::with_capacity(alloc, Slot::COUNT)?;
        for _ in 0..Slot::COUNT {
            maps.push(TreeStore::new(alloc))?;
        }
        Ok(SlotStore { maps })
    }
}

impl Store for SlotStore {
    ghost contents = { λ store. store };

    fn get(&self, key: &ByteString) -> Option<&Value> {
        self.maps[slot(key.as_slice()).index()].get(key)
    }

    fn insert(&mut self, key: ByteString, value: Value) -> Result<Option<Value>, AllocError> {
        let slot = slot(key.as_slice());
        self.maps[slot.index()].insert(key, value)
    }

    fn remove(&mut self, key: &ByteString) {
        let _old = self.maps[slot(key.as_slice()).index()].remove(key);
    }

    fn change_fields(&mut self, key: ByteString, changes: FieldChanges) -> Result<(), AllocError> {
        let slot = slot(key.as_slice());
        change_fields_in(&mut self.maps[slot.index()], key, changes)
    }

    fn append(
        &mut self,
        alloc: Global,
        key: ByteString,
        bytes: ByteString,
    ) -> Result<(), AllocError> {
        let slot = slot(key.as_slice());
        append_in(alloc, &mut self.maps[slot.index()], key, bytes)
    }
}

impl SlotParts for SlotStore {
    type Part = TreeStore;

    fn count_in_slot(&self, slot: Slot) -> usize {
        self.maps[slot.index()].len()
    }

    fn keys_in_slot(
        &self,
        alloc: Global,
        slot: Slot,
        count: usize,
    ) -> Result<Vec<ByteString>, AllocError> {
        first_keys(alloc, &self.maps[slot.index()], count)
    }

    fn part(&self, slot: Slot) -> &TreeStore {
        &self.maps[slot.index()]
    }

    fn commit_in_slot(&mut self, alloc: Global, slot: Slot, plan: Plan) -> Result<(), AllocError> {
        commit(alloc, &mut self.maps[slot.index()], plan)
    }

    fn clear_slot(&mut self, slot: Slot) {
        self.maps[slot.index()].clear();
    }
}

// The first keys of the map, at most `count`, which are in order.
fn first_keys(alloc: Global, map: &TreeStore, count: usize) -> Result<Vec<ByteString>, AllocError>
    ensures found { IfOk result (λ found. found.items ≡ take count (keys map.now)) }
    ensures ordered { IsOrdered map.now }
{
    let mut found = Vec::with_capacity(alloc, count.min(map.len()))?;
    for key in map.keys().take(count) {
        found.push(key.clone()?)?;
    }
    Ok(found)
}
