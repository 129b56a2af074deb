//! Where the pairs of a map lie: few in a list, and more in a tree.
ghost use Rattle.std.specs.Prelude.{◌≡◌, ◌^◌, ◌<◌, [], length, None, OnOk, OnErr, IfOk};
ghost use Rattle.std.specs.Borrow.{sem};
ghost use Rattle.std.specs.BTreeMap.{insert_entry};
ghost use Rattle.std.specs.Cmp.Lexicographic.{slice_cmp};
ghost use Rattle.std.specs.Map.{lookup, remove_entry};
ghost use Rattle.std.specs.Option.{option_copied, option_copied_mut};
ghost use Rattle.std.specs.Ordering.{nat_cmp};
ghost use Rattle.key_map.specs.Form.{entries_of};
ghost use Rattle.key_map.specs.KeyMap.{is_key, IsRising};

use crate::few::Few;
use byte_string::ByteString;
use std::alloc::{AllocError, Global};
use std::collections::BTreeMap;

// The largest number of pairs in a list.
const MOST_FEW: usize = 8;

#[derive(Drop)]
pub(crate) enum Form<V> {
    Few(Few<V>),
    Many(BTreeMap<ByteString, V>),
}

impl<V> Form<V> {
    ghost use Rattle.key_map.specs.FormLending.{LendsValueOf};

    pub(crate) fn len(&self) -> usize
        ensures len { result ≡ length (entries_of self.now) }
        ensures small { result < 2 ^ 63 }
    {
        match self {
            Form::Few(few) => few.len(),
            Form::Many(tree) => tree.len(),
        }
    }

    pub(crate) fn get(&self, key: &ByteString) -> Option<&V>
        requires { IsRising (entries_of self.now) }
        ensures { option_copied result ≡ lookup (is_key key.now) (entries_of self.now) }
    {
        match self {
            Form::Few(few) => few.get(key),
            Form::Many(tree) => tree.get(key),
        }
    }

    pub(crate) fn get_mut(&mut self, key: &ByteString) -> Option<&mut V>
        requires { IsRising (entries_of self.old) }
        ensures* lends { sem 𝓛 (LendsValueOf V.row self.entry key.now result) }
        ensures value { option_copied_mut result ≡ lookup (is_key key.now) (entries_of self.old) }
    {
        match self {
            Form::Few(few) => few.get_mut(key),
            Form::Many(tree) => tree.get_mut(key),
        }
    }

    pub(crate) fn insert(
        &mut self,
        alloc: Global,
        key: ByteString,
        value: V,
    ) -> Result<Option<V>, AllocError>
    where
        V: Drop,
        requires { IsRising (entries_of self.old) }
        ensures old { IfOk result (λ old. old ≡ lookup (is_key key) (entries_of self.old)) }
        ensures entries { OnOk result (entries_of self.new ≡ insert_entry (slice_cmp nat_cmp) (entries_of self.old) key value) }
        ensures absent { OnErr result (lookup (is_key key) (entries_of self.old) ≡ None) }
        ensures err { OnErr result (entries_of self.new ≡ entries_of self.old) }
    {
        let few = match self {
            Form::Many(tree) => return insert_in_tree(tree, key, value),
            Form::Few(few) => few,
        };
        match few.place(&key) {
            Ok(at) => Ok(Some(few.replace(at, value))),
            Err(at) if few.len() < MOST_FEW => {
                few.insert(at, key, value)?;
                Ok(None)
            }
            Err(_) => {
                *self = Form::Many(few.tree_with(alloc, key, value)?);
                Ok(None)
            }
        }
    }

    pub(crate) fn remove(&mut self, key: &ByteString) -> Option<V>
        requires { IsRising (entries_of self.old) }
        ensures value { result ≡ lookup (is_key key.now) (entries_of self.old) }
        ensures entries { entries_of self.new ≡ remove_entry (is_key key.now) (entries_of self.old) }
    {
        match self {
            Form::Few(few) => few.remove(key),
            Form::Many(tree) => tree.remove(key),
        }
    }
}

fn insert_in_tree<V: Drop>(
    tree: &mut BTreeMap<ByteString, V>,
    key: ByteString,
    value: V,
) -> Result<Option<V>, AllocError>
    ensures old { IfOk result (λ old. old ≡ lookup (is_key key) tree.old.entries) }
    ensures entries { OnOk result (tree.new.entries ≡ insert_entry (slice_cmp nat_cmp) tree.old.entries key value) }
    ensures absent { OnErr result (lookup (is_key key) tree.old.entries ≡ None) }
    ensures err { OnErr result (tree.new.entries ≡ tree.old.entries) }
{
    tree.insert(key, value).map_err(AllocError::from)
}
