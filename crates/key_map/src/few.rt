//! A few keys with their values in a list.
ghost use Rattle.std.specs.Prelude.{◌≡◌, ◌<◌, ◌≤◌, ◌+◌, ◌++◌, [], length, vec_len, vec_capacity, Err, OnOk, OnErr, IfOk, Some};
ghost use Rattle.std.specs.Borrow.{sem};
ghost use Rattle.std.specs.BTreeMap.{insert_entry};
ghost use Rattle.std.specs.Cmp.Lexicographic.{slice_cmp};
ghost use Rattle.std.specs.List.{slice_get};
ghost use Rattle.std.specs.Map.{lookup, remove_entry, values_of};
ghost use Rattle.std.specs.Option.{option_copied, option_copied_mut};
ghost use Rattle.std.specs.Ordering.{nat_cmp};
ghost use Rattle.key_map.specs.Few.{place_of, set_value_at};
ghost use Rattle.key_map.specs.KeyMap.{is_key, IsRising};

use byte_string::ByteString;
use std::alloc::{AllocError, Global};
use std::cmp::Ordering;
use std::collections::BTreeMap;
use std::mem;

/// Pairs by rising key, with room for exactly as many as there were at most.
#[derive(Drop)]
pub(crate) struct Few<V> {
    pub(crate) pairs: Vec<(ByteString, V)>,
}

impl<V> Few<V> {
    ghost use Rattle.key_map.specs.FewLending.{LendsValueAt, LendsValueOf};

    pub(crate) fn new(alloc: Global) -> Few<V>
        ensures { result.pairs.items ≡ [] }
    {
        Few {
            pairs: Vec::new(alloc),
        }
    }

    pub(crate) fn len(&self) -> usize
        ensures { result ≡ length self.now.pairs.items }
    {
        self.pairs.len()
    }

    /// Where the key is, or where it would be.
    pub(crate) fn place(&self, key: &ByteString) -> Result<usize, usize>
        ensures { result ≡ place_of key.now self.now.pairs.items }
    {
        place_in(self.pairs.as_slice(), key)
    }

    pub(crate) fn get(&self, key: &ByteString) -> Option<&V>
        requires { IsRising self.now.pairs.items }
        ensures { option_copied result ≡ lookup (is_key key.now) self.now.pairs.items }
    {
        match self.place(key) {
            Ok(at) => Some(&self.pairs[at].1),
            Err(_) => None,
        }
    }

    pub(crate) fn get_mut(&mut self, key: &ByteString) -> Option<&mut V>
        requires { IsRising self.old.pairs.items }
        ensures* lends { sem 𝓛 (LendsValueOf V.row self.entry key.now result) }
        ensures value { option_copied_mut result ≡ lookup (is_key key.now) self.old.pairs.items }
    {
        match self.place(key) {
            Ok(at) => Some(self.value_mut(at)),
            Err(_) => None,
        }
    }

    fn value_mut(&mut self, at: usize) -> &mut V
        requires { at < vec_len self.old.pairs }
        ensures* lends { sem 𝓛 (LendsValueAt V.row self.entry at result) }
        ensures value { slice_get (values_of self.old.pairs.items) at ≡ Some result.now }
    {
        let pair = &mut self.pairs[at];
        &mut pair.1
    }

    /// Puts another value at the key that is there, and gives back the one that it had.
    pub(crate) fn replace(&mut self, at: usize, value: V) -> V
        requires { at < vec_len self.old.pairs }
        ensures value { slice_get (values_of self.old.pairs.items) at ≡ Some result }
        ensures pairs { self.new.pairs.items ≡ set_value_at self.old.pairs.items at value }
    {
        let pair = &mut self.pairs[at];
        mem::replace(&mut pair.1, value)
    }

    /// Puts a pair where its key would be, unless memory is refused.
    pub(crate) fn insert(&mut self, at: usize, key: ByteString, value: V) -> Result<(), AllocError>
    where
        V: Drop,
        requires { place_of key self.old.pairs.items ≡ Err at }
        ensures ok { OnOk result (self.new.pairs.items ≡ insert_entry (slice_cmp nat_cmp) self.old.pairs.items key value) }
        ensures err { OnErr result (self.new.pairs.items ≡ self.old.pairs.items) }
    {
        self.pairs.reserve_exact(1)?;
        self.pairs.insert(at, (key, value))?;
        Ok(())
    }

    pub(crate) fn remove(&mut self, key: &ByteString) -> Option<V>
        requires { IsRising self.old.pairs.items }
        ensures value { result ≡ lookup (is_key key.now) self.old.pairs.items }
        ensures pairs { self.new.pairs.items ≡ remove_entry (is_key key.now) self.old.pairs.items }
    {
        match self.place(key) {
            Ok(at) => {
                let (_key, value) = self.pairs.remove(at);
                Some(value)
            }
            Err(_) => None,
        }
    }

    /// A tree of all pairs and a new one, unless memory is refused: then all pairs are here as before.
    pub(crate) fn tree_with(
        &mut self,
        alloc: Global,
        key: ByteString,
        value: V,
    ) -> Result<BTreeMap<ByteString, V>, AllocError>
    where
        V: Drop,
        requires { IsRising self.old.pairs.items }
        ensures ok { IfOk result (λ tree. tree.entries ≡ insert_entry (slice_cmp nat_cmp) self.old.pairs.items key value) }
        ensures err { OnErr result (self.new.pairs.items ≡ self.old.pairs.items) }
    {
        let mut tree = BTreeMap::new(alloc);
        self.move_into(&mut tree)?;
        if let Err(refused) = tree.insert(key, value) {
            self.move_back(&mut tree);
            return Err(AllocError::from(refused));
        }
        Ok(tree)
    }

    // Moves all pairs into an empty tree, from the last one on, or none where memory is refused.
    fn move_into(&mut self, tree: &mut BTreeMap<ByteString, V>) -> Result<(), AllocError>
    where
        V: Drop,
        requires rising { IsRising self.old.pairs.items }
        requires empty { tree.old.entries ≡ [] }
        ensures ok { OnOk result (tree.new.entries ≡ self.old.pairs.items) }
        ensures moved { OnOk result (self.new.pairs.items ≡ []) }
        ensures room { OnOk result (length self.old.pairs.items ≤ vec_capacity self.new.pairs) }
        ensures err { OnErr result (self.new.pairs.items ≡ self.old.pairs.items) }
    {
        while let Some((key, value)) = self.pairs.pop() {
            if let Err(refused) = tree.insert(key, value) {
                self.pairs.push_reserved(refused.value);
                self.move_back(tree);
                return Err(AllocError);
            }
        }
        Ok(())
    }

    // Puts all pairs of the tree behind those that are here.
    fn move_back(&mut self, tree: &mut BTreeMap<ByteString, V>)
        requires { length self.old.pairs.items + length tree.old.entries ≤ vec_capacity self.old.pairs }
        ensures { self.new.pairs.items ≡ self.old.pairs.items ++ tree.old.entries }
    {
        while let Some(pair) = tree.pop_first() {
            self.pairs.push_reserved(pair);
        }
    }
}

fn place_in<V>(pairs: &[(ByteString, V)], key: &ByteString) -> Result<usize, usize>
    ensures { result ≡ place_of key.now pairs.now }
{
    let mut at = 0;
    let mut rest = pairs;
    while let Some((pair, after)) = rest.split_first() {
        match key.cmp(&pair.0) {
            Ordering::Greater => {}
            Ordering::Equal => return Ok(at),
            Ordering::Less => return Err(at),
        }
        at += 1;
        rest = after;
    }
    Err(at)
}
