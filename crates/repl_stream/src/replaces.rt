//! Stores that can be made anew.
ghost use Rattle.std.specs.Prelude.{◌≡◌, IfOk};
ghost use Rattle.std.specs.FinMap as map;

use keyspace::{Store, TreeStore};
use slot_store::SlotStore;
use std::alloc::{AllocError, Global};

/// A store of which another one takes the place: so a snapshot takes all or nothing.
pub trait Replaces: Store + Drop {
    /// A store with no keys.
    fn empty(alloc: Global) -> Result<Self, AllocError>
        ensures { IfOk result (λ store. Self.contents store ≡ map.empty) };
}

impl Replaces for TreeStore {
    fn empty(alloc: Global) -> Result<TreeStore, AllocError> {
        Ok(TreeStore::new(alloc))
    }
}

impl Replaces for SlotStore {
    fn empty(alloc: Global) -> Result<SlotStore, AllocError> {
        SlotStore::new(alloc)
    }
}
