//! A map from keys to values.
ghost use Rattle.std.specs.Prelude.{◌≡◌, ◌^◌, ◌<◌, ◌==◌, ℕ, List, [], length, Some, None, OnOk, OnErr, IfOk};
ghost use Rattle.std.specs.Borrow.{sem};
ghost use Rattle.std.specs.BTreeMap.{insert_entry};
ghost use Rattle.std.specs.Cmp.Lexicographic.{slice_cmp};
ghost use Rattle.std.specs.Map.{remove_entry};
ghost use Rattle.std.specs.Option.{option_copied, option_copied_mut};
ghost use Rattle.std.specs.Ordering.{nat_cmp};
ghost use Rattle.key_map.specs.KeyMap.{get, is_key, keys, map_len, IsOrdered, Updates};

use crate::few::Few;
use crate::form::Form;
use crate::keys::Keys;
use byte_string::ByteString;
use std::alloc::{AllocError, Global};
use std::marker::Model;

/// Keys with their values, in the byte order of the keys.
///
/// Up to eight lie in a list that has room for no more than the most that it had, and more lie in a tree. A tree stays
/// one until it is cleared.
pub struct KeyMap<V> {
    form: Form<V>,
    alloc: Global,
}

impl<V> Model for KeyMap<V> {
    ghost use Rattle.key_map.specs.Form.{entries_of};
    ghost use Rattle.key_map.specs.KeyMap.{KeyMap as Entries, key_map_code, IsRising};

    ghost Value = { Entries V };

    ghost coded = { key_map_code V.code };

    ghost view = { λ map. record { entries = entries_of map.form } };

    ghost invariant = { λ map. IsRising (entries_of map.form) };
}

impl<V: Drop> Drop for KeyMap<V> {
    fn drop(self) {
        let KeyMap { form: _, alloc: _ } = self;
    }
}

impl<V> KeyMap<V> {
    ghost use Rattle.key_map.specs.Lending.{LendsValue};

    /// A map with no keys. It takes no memory.
    pub fn new(alloc: Global) -> KeyMap<V>
        ensures empty { result.entries ≡ [] }
    {
        KeyMap {
            form: Form::Few(Few::new(alloc)),
            alloc,
        }
    }

    /// The number of keys.
    pub fn len(&self) -> usize
        ensures len { result ≡ map_len self.now }
        ensures small { result < 2 ^ 63 }
        ensures ordered { IsOrdered self.now }
    {
        self.form.len()
    }

    /// Whether there is no key.
    pub fn is_empty(&self) -> bool
        ensures { result ≡ (map_len self.now == 0) }
    {
        self.len() == 0
    }

    /// The value at the key, or None.
    pub fn get(&self, key: &ByteString) -> Option<&V>
        ensures value { option_copied result ≡ get self.now key.now }
    {
        self.form.get(key)
    }

    /// The value at the key, to be changed in place.
    pub fn get_mut(&mut self, key: &ByteString) -> Option<&mut V>
        ensures* lends { sem 𝓛 (LendsValue V.row self.entry key.now result) }
        ensures value { option_copied_mut result ≡ get self.old key.now }
    {
        self.form.get_mut(key)
    }

    /// Puts the value at the key, and gives back the one that it had. It fails only where the key is new and memory is
    /// refused, and then the map stays as it was.
    pub fn insert(&mut self, key: ByteString, value: V) -> Result<Option<V>, AllocError>
    where
        V: Drop,
        ensures old { IfOk result (λ old. old ≡ get self.old key) }
        ensures entries { OnOk result (self.new.entries ≡ insert_entry (slice_cmp nat_cmp) self.old.entries key value) }
        ensures updates { OnOk result (Updates self.old self.new key (Some value)) }
        ensures absent { OnErr result (get self.old key ≡ None) }
        ensures err { OnErr result (self.new.entries ≡ self.old.entries) }
    {
        self.form.insert(self.alloc, key, value)
    }

    /// Removes the key, and gives back its value.
    pub fn remove(&mut self, key: &ByteString) -> Option<V>
        ensures value { result ≡ get self.old key.now }
        ensures entries { self.new.entries ≡ remove_entry (is_key key.now) self.old.entries }
        ensures updates { Updates self.old self.new key.now None }
    {
        self.form.remove(key)
    }

    /// Removes all keys, and gives back their memory.
    pub fn clear(&mut self)
    where
        V: Drop,
        ensures empty { self.new.entries ≡ [] }
    {
        self.form = Form::Few(Few::new(self.alloc));
    }

    /// The keys, in byte order. It takes no memory.
    pub fn keys(&self) -> Keys<'_, V>
        ensures rest { result ≡ keys self.now }
        ensures ordered { IsOrdered self.now }
    {
        Keys::of(&self.form)
    }
}
