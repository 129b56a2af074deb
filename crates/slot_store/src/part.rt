//! What a store has in one slot, as a store of its own.
ghost use Rattle.std.specs.Prelude.{◌≡◌, ◌++◌, OnOk};
ghost use Rattle.std.specs.FinMap as map;
ghost use Rattle.std.specs.List.{list_all};
ghost use Rattle.key_map.specs.KeyMap as key_map;
ghost use Rattle.key_map.specs.KeyMap.{IsOrdered};
ghost use Rattle.keyspace.specs.Plan.{leaves_keys};
ghost use Rattle.slot_store.specs.InSlot.{has_only, is_among};

use byte_string::ByteString;
use keyspace::{Pair, Plan, Store, TreeStore, leaves_keys};
use std::alloc::AllocError;

/// The keys of a slot with their values.
///
/// Where memory is out, what a call appended to a list before stays there.
pub trait Part: Store {
    /// Appends copies of all keys to the list, in their byte order.
    fn push_keys(&self, keys: &mut Vec<ByteString>) -> Result<(), AllocError>
        ensures { OnOk result (keys.new.items ≡ keys.old.items ++ map.keys (Self.contents self.now)) };

    /// Appends copies of all keys with their values to the list, in the byte order of the keys. Long values share their bytes.
    fn push_pairs(&self, pairs: &mut Vec<Pair>) -> Result<(), AllocError>
        ensures { OnOk result (pairs.new.items ≡ pairs.old.items ++ map.entries (Self.contents self.now)) };

    /// Whether each key is among these.
    fn has_only(&self, keys: &[ByteString]) -> bool
        ensures { result ≡ has_only keys.now (Self.contents self.now) };

    /// Whether a key is there once the plan is committed. It takes no memory.
    fn leaves_keys(&self, plan: &Plan) -> bool
        ensures { result ≡ leaves_keys (Self.contents self.now) plan.now };
}

impl Part for TreeStore {
    fn push_keys(&self, keys: &mut Vec<ByteString>) -> Result<(), AllocError> {
        for key in self.keys() {
            keys.push(key.clone()?)?;
        }
        Ok(())
    }

    fn push_pairs(&self, pairs: &mut Vec<Pair>) -> Result<(), AllocError> {
        for key in self.keys() {
            let Some(value) = self.get(key) else {
                continue;
            };
            pairs.push(Pair::new(key.clone()?, value.clone()?))?;
        }
        Ok(())
    }

    fn has_only(&self, keys: &[ByteString]) -> bool {
        are_all_among(keys, self)
    }

    fn leaves_keys(&self, plan: &Plan) -> bool {
        leaves_keys(self, plan)
    }
}

// Whether all keys of the map are among these.
fn are_all_among(keys: &[ByteString], map: &TreeStore) -> bool
    ensures all { result ≡ list_all (is_among keys.now) (key_map.keys map.now) }
    ensures ordered { IsOrdered map.now }
{
    map.keys().all(|key| is_among(keys, key))
}

// Whether the key is one of these.
fn is_among(keys: &[ByteString], key: &ByteString) -> bool
    ensures { result ≡ is_among keys.now key.now }
{
    keys.iter().any(|other| other == key)
}
