//! New values of any number of keys: decided first, and put later.
ghost use Rattle.std.specs.Prelude.{◌≡◌, OnOk, OnErr, IfOk, IsOk, IsTrue, IsFalse};
ghost use Rattle.std.specs.Option.{option_copied};
ghost use Rattle.std.specs.FinMap as map;
ghost use Rattle.keyspace.specs.Commit.{without, ArePartsOf};
ghost use Rattle.keyspace.specs.Leaving.{any_put, is_gone, puts_beside, AlwaysLeave, PutNone};
ghost use Rattle.keyspace.specs.Changes.{changes_in, applied, with_all};
ghost use Rattle.keyspace.specs.Putting.{PutsPairs};

use crate::putting::{ValuePairs, change_key, put_pairs};
use crate::store::Store;
use crate::value::Value;
use byte_string::ByteString;
use std::alloc::{AllocError, Global};
use std::collections::BTreeMap;
use std::marker::Model;

/// New values of keys that are decided and not put yet: at most one for each key. A single one allocates nothing.
pub struct NewValues {
    // The key that was changed first, with its latest change. It stands apart so that a single change needs no tree.
    first: Option<(ByteString, Option<Value>)>,
    // The changes of all other keys.
    more: BTreeMap<ByteString, Option<Value>>,
}

impl Model for NewValues {
    ghost use Rattle.std.specs.Prelude.{ℕ};
    ghost use Rattle.std.specs.Coded.{codes, coded_list, coded_ℕ};
    ghost use Rattle.std.specs.Ordering.{nat_cmp};
    ghost use Rattle.std.specs.Cmp.Lexicographic.{slice_cmp};
    ghost use Rattle.std.specs.FinMap as map;
    ghost use Rattle.keyspace.specs.Changes.{Changes, changes_of, with_first};

    ghost Value = { Changes };

    ghost coded = { map.code {R = slice_cmp nat_cmp} (coded_list coded_ℕ) (Prim.hlevel codes) };

    ghost view = { λ values. with_first values.first (changes_of values.more.entries) };
}

impl Drop for NewValues {
    fn drop(self) {
        let NewValues { first: _, more: _ } = self;
    }
}

impl NewValues {
    // No changes.
    pub(crate) fn new(alloc: Global) -> NewValues
        ensures { result ≡ map.empty }
    {
        NewValues {
            first: None,
            more: BTreeMap::new(alloc),
        }
    }

    // Whether nothing changes.
    pub(crate) fn is_empty(&self) -> bool
        ensures { IsTrue result → self.now ≡ map.empty }
    {
        self.first.is_none() && self.more.is_empty()
    }

    // The change of the key, or None where there is none.
    pub(crate) fn get(&self, key: &ByteString) -> Option<&Option<Value>>
        ensures { option_copied result ≡ map.get self.now key.now }
    {
        match &self.first {
            Some((first, change)) if first == key => Some(change),
            _ => self.more.get(key),
        }
    }

    /// Changes the value at the key: a later change replaces the earlier one.
    pub fn insert(&mut self, key: ByteString, change: Option<Value>) -> Result<(), AllocError>
        ensures ok { OnOk result (self.new ≡ map.insert self.old key change) }
        ensures err { OnErr result (self.new ≡ self.old) }
    {
        match &mut self.first {
            None => self.first = Some((key, change)),
            Some((first, former)) if *first == key => *former = change,
            Some(_) => return put(&mut self.more, key, change),
        }
        Ok(())
    }

    // Puts values at their keys, from left to right.
    #[tactic(auto, using(crate::proofs::Restored::pair_planned))]
    pub(crate) fn insert_each(&mut self, pairs: ValuePairs) -> Result<(), AllocError>
        ensures { OnOk result (PutsPairs self.old self.new pairs.items) }
    {
        for (key, value) in pairs {
            self.insert(key, Some(value))?;
        }
        Ok(())
    }

    /// The value at the key once all changes are made.
    #[tactic(auto, using(crate::proofs::Applied::get_applied))]
    pub fn look<'a, S: Store>(&'a self, store: &'a S, key: &ByteString) -> Option<&'a Value>
        ensures { option_copied result ≡ map.get (applied (S.contents store.now) self.now) key.now }
    {
        match self.get(key) {
            Some(change) => change.as_ref(),
            None => store.get(key),
        }
    }

    /// Makes all changes, or none where an allocation fails. A single one walks down the store once.
    pub(crate) fn put<S: Store>(self, alloc: Global, store: &mut S) -> Result<(), AllocError>
        ensures ok { OnOk result (S.contents store.new ≡ applied (S.contents store.old) self) }
        ensures err { OnErr result (S.contents store.new ≡ S.contents store.old) }
    {
        let NewValues { first, more } = self;
        match first {
            None => put_more(alloc, store, more),
            Some((key, value)) => put_with(alloc, store, more, key, value),
        }
    }

    // Whether a value is put at a key other than the one that is gone.
    pub(crate) fn put_beside(&self, gone: Option<&ByteString>) -> bool
        ensures some { IsTrue result → AlwaysLeave self.now (option_copied gone.entry) }
        ensures none { IsFalse result → PutNone self.now (option_copied gone.entry) }
    {
        match &self.first {
            Some((key, _)) if self.puts_beside(gone, key) => true,
            _ => any_put(self, &self.more, gone),
        }
    }

    fn puts_beside(&self, gone: Option<&ByteString>, key: &ByteString) -> bool
        ensures { result ≡ puts_beside self.now (option_copied gone.entry) key.now }
    {
        !is_gone(gone, key) && matches!(self.get(key), Some(Some(_)))
    }
}

// Whether a value is put at one of the keys of the changes.
fn any_put(
    values: &NewValues,
    changes: &BTreeMap<ByteString, Option<Value>>,
    gone: Option<&ByteString>,
) -> bool
    ensures { result ≡ any_put values.now (option_copied gone.entry) changes.now.entries }
{
    for key in changes.keys() {
        if values.puts_beside(gone, key) {
            return true;
        }
    }
    false
}

pub(crate) fn is_gone(gone: Option<&ByteString>, key: &ByteString) -> bool
    ensures { result ≡ is_gone (option_copied gone.entry) key.now }
{
    match gone {
        Some(gone) => gone == key,
        None => false,
    }
}

// No change stands apart.
#[tactic(auto, using(crate::proofs::FirstChange::applied_none))]
fn put_more<S: Store>(
    alloc: Global,
    store: &mut S,
    changes: BTreeMap<ByteString, Option<Value>>,
) -> Result<(), AllocError>
    ensures ok { OnOk result (S.contents store.new ≡ with_all (S.contents store.old) changes.entries) }
    ensures err { OnErr result (S.contents store.new ≡ S.contents store.old) }
{
    if changes.is_empty() {
        return Ok(());
    }
    change_all(alloc, store, changes)
}

// One change stands apart.
#[tactic(auto, using(crate::proofs::FirstChange::applied_only))]
fn put_with<S: Store>(
    alloc: Global,
    store: &mut S,
    mut changes: BTreeMap<ByteString, Option<Value>>,
    key: ByteString,
    value: Option<Value>,
) -> Result<(), AllocError>
    ensures ok { OnOk result (
        S.contents store.new ≡ applied (S.contents store.old) (map.insert (changes_in changes) key value)) }
    ensures err { OnErr result (S.contents store.new ≡ S.contents store.old) }
{
    if changes.is_empty() {
        return change_key(store, key, value);
    }
    put(&mut changes, key, value)?;
    change_all(alloc, store, changes)
}

fn put(
    changes: &mut BTreeMap<ByteString, Option<Value>>,
    key: ByteString,
    change: Option<Value>,
) -> Result<(), AllocError>
    ensures ok { OnOk result (changes_in changes.new ≡ map.insert (changes_in changes.old) key change) }
    ensures err { OnErr result (changes_in changes.new ≡ changes_in changes.old) }
{
    let _former = changes.insert(key, change)?;
    Ok(())
}

// All values are put, of which each new one may be refused, and then the other keys are removed, which can't fail.
fn change_all<S: Store>(
    alloc: Global,
    store: &mut S,
    changes: BTreeMap<ByteString, Option<Value>>,
) -> Result<(), AllocError>
    ensures ok { OnOk result (S.contents store.new ≡ with_all (S.contents store.old) changes.entries) }
    ensures err { OnErr result (S.contents store.new ≡ S.contents store.old) }
{
    let (pairs, removed) = parted(alloc, changes)?;
    put_pairs(alloc, store, pairs)?;
    remove_all(store, removed.as_slice());
    Ok(())
}

// The values that are put, and the keys that are removed.
fn parted(
    alloc: Global,
    mut changes: BTreeMap<ByteString, Option<Value>>,
) -> Result<(ValuePairs, Vec<ByteString>), AllocError>
    ensures { IfOk result (λ parts. ArePartsOf changes.entries parts.0.items parts.1.items) }
{
    let mut pairs = Vec::with_capacity(alloc, changes.len())?;
    let mut removed = Vec::new(alloc);
    while let Some((key, change)) = changes.pop_first() {
        match change {
            Some(value) => pairs.push((key, value))?,
            None => removed.push(key)?,
        }
    }
    Ok((pairs, removed))
}

fn remove_all<S: Store>(store: &mut S, keys: &[ByteString])
    ensures { S.contents store.new ≡ without (S.contents store.old) keys.now }
{
    for key in keys {
        store.remove(key);
    }
}
