//! Where a node keeps its keys: the trait of all stores, and a store in a map.
ghost use Rattle.std.specs.Prelude.{◌≡◌, OnOk, OnErr, IfOk, IsSome, IsOk};
ghost use Rattle.std.specs.Option.{option_copied};
ghost use Rattle.std.specs.FinMap as map;
ghost use Rattle.keyspace.specs.Keyspace.{keyspace_of, with_appended, with_fields};

use crate::appending::append_in;
use crate::fields::{FieldChanges, change_fields_in, remove_from};
use crate::value::Value;
use byte_string::ByteString;
use key_map::KeyMap;
use std::alloc::{AllocError, Global};

/// A map from keys to values. A call that fails changes nothing.
pub trait Store {
    ghost use Rattle.keyspace.specs.Keyspace.{Keyspace};

    ghost contents: { Self → Keyspace };

    /// The value at the key, or None.
    fn get(&self, key: &ByteString) -> Option<&Value>
        ensures { option_copied result ≡ map.get (contents self.now) key.now };

    /// Puts the value at the key, and gives back the one that it had. It fails only where the key is new and memory is out.
    fn insert(&mut self, key: ByteString, value: Value) -> Result<Option<Value>, AllocError>
        ensures old { IfOk result (λ old. old ≡ map.get (contents self.old) key) }
        ensures ok { OnOk result (contents self.new ≡ map.insert (contents self.old) key value) }
        ensures err { OnErr result (contents self.new ≡ contents self.old) }
        ensures over { IsSome (map.get (contents self.old) key) → IsOk result };

    /// Removes the key, if it is there.
    fn remove(&mut self, key: &ByteString)
        ensures { contents self.new ≡ map.remove (contents self.old) key.now };

    /// Changes fields of the hash at the key, and copies nothing else of it.
    ///
    /// A missing hash begins with no fields, and one that is left with none is removed. A string stays.
    fn change_fields(&mut self, key: ByteString, changes: FieldChanges) -> Result<(), AllocError>
        ensures ok { OnOk result (contents self.new ≡ with_fields (contents self.old) key changes.items) }
        ensures err { OnErr result (contents self.new ≡ contents self.old) };

    /// Puts the bytes behind the string at the key, in place.
    ///
    /// A missing string begins empty, and a hash stays.
    fn append(
        &mut self,
        alloc: Global,
        key: ByteString,
        bytes: ByteString,
    ) -> Result<(), AllocError>
        ensures ok { OnOk result (contents self.new ≡ with_appended (contents self.old) key bytes) }
        ensures err { OnErr result (contents self.new ≡ contents self.old) };
}

/// A store in one map, in the byte order of its keys: in a list while it has few, and then in a tree.
pub type TreeStore = KeyMap<Value>;

impl Store for KeyMap<Value> {
    ghost contents = { λ map. keyspace_of map.entries };

    fn get(&self, key: &ByteString) -> Option<&Value> {
        KeyMap::get(self, key)
    }

    fn insert(&mut self, key: ByteString, value: Value) -> Result<Option<Value>, AllocError> {
        KeyMap::insert(self, key, value)
    }

    fn remove(&mut self, key: &ByteString) {
        remove_from(self, key);
    }

    fn change_fields(&mut self, key: ByteString, changes: FieldChanges) -> Result<(), AllocError> {
        change_fields_in(self, key, changes)
    }

    fn append(
        &mut self,
        alloc: Global,
        key: ByteString,
        bytes: ByteString,
    ) -> Result<(), AllocError> {
        append_in(alloc, self, key, bytes)
    }
}
