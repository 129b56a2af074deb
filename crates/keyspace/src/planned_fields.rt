//! Changes of the fields of one hash, as a plan keeps them.
ghost use Rattle.std.specs.Prelude.{◌≡◌, ◌+◌, ◌<◌, ◌^◌, ◌∷◌, [], None, count_by, is_some, length, nat_eq, IfOk, IsFalse, OnOk};
ghost use Rattle.std.specs.Cmp.Lexicographic.{pointwise};
ghost use Rattle.std.specs.List.{IsDistinct};
ghost use Rattle.std.specs.Option.{option_copied};
ghost use Rattle.hash.specs.Pairs.{HasDistinctFields, value_of};
ghost use Rattle.indexmap.specs.IndexSet.{insert_key};
ghost use Rattle.keyspace.specs.Hashes.{fields_after, fields_in, removals};
ghost use Rattle.keyspace.specs.Keyspace.{fields_left};
ghost use Rattle.keyspace.specs.PlannedFields.{IsPlanned, RemoveFields, RemovesEach, sets_last};

use crate::fields::FieldChanges;
use crate::hash_at::{hash_in, len_of, value_in};
use crate::value::Value;
use byte_string::ByteString;
use hash::Hash;
use indexmap::IndexSet;
use std::alloc::{AllocError, Global};
use std::marker::Model;

/// Changes of the fields of one hash: they remove fields, each one once, or the last one sets a field.
///
/// So one pass and no memory tell whether they leave a field.
#[derive(Drop)]
pub struct PlannedFields {
    changes: FieldChanges,
}

impl Model for PlannedFields {
    ghost use Rattle.hash.specs.Pairs.{Changes};
    ghost use Rattle.keyspace.specs.PlannedFields.{IsPlanned};

    ghost Value = { Changes };

    ghost view = { λ planned. planned.changes.items };

    ghost invariant = { λ planned. IsPlanned planned.changes.items };
}

impl PlannedFields {
    /// These changes.
    pub fn new(changes: FieldChanges) -> PlannedFields
        requires { IsPlanned changes.items }
        ensures { result ≡ changes.items }
    {
        PlannedFields { changes }
    }

    /// Each of the fields removed, once.
    #[tactic(auto, using(crate::proofs::RemovedFields::each_sets_none))]
    pub fn removing(alloc: Global, fields: &[ByteString]) -> Result<PlannedFields, AllocError>
        ensures each { IfOk result (λ planned. RemovesEach planned) }
        ensures same { IfOk result (RemoveFields fields.now) }
    {
        let changes = removals(alloc, fields)?;
        Ok(PlannedFields { changes })
    }

    pub(crate) fn into_changes(self) -> FieldChanges
        ensures { result.items ≡ self }
    {
        let PlannedFields { changes } = self;
        changes
    }

    /// How many fields of the hash are removed, where none is set.
    #[tactic(auto, using(crate::proofs::RemovedFields::each_removed))]
    pub fn count_removed(&self, hash: Option<&Hash>) -> usize
        requires { RemovesEach self.now }
        ensures count { result + length (fields_after hash.entry self.now) ≡ length (fields_in hash.entry) }
        ensures small { result < 2 ^ 63 }
        ensures distinct { HasDistinctFields (fields_in hash.entry) }
    {
        prove!(len_of(hash) < 1 << 63);
        count_there(hash, &self.changes)
    }

    /// Whether a value is left where this one is changed.
    #[tactic(auto, using(crate::proofs::RemovedFields::sets_leave, crate::proofs::RemovedFields::some_left))]
    pub(crate) fn leave_value(&self, value: Option<&Value>) -> bool
        ensures { result ≡ is_some (fields_left (option_copied value.entry) self.now) }
    {
        if self.sets_last() {
            return true;
        }
        match hash_in(value) {
            Ok(hash) => self.count_removed(hash) < len_of(hash),
            Err(_) => true,
        }
    }

    // Whether the last change sets a field. If it doesn't, fields are removed, each one once.
    fn sets_last(&self) -> bool
        ensures last { result ≡ sets_last self.now }
        ensures each { IsFalse result → RemovesEach self.now }
    {
        matches!(self.changes.last(), Some((_, Some(_))))
    }
}

// Each field without a value, once.
#[tactic(auto, using(crate::proofs::RemovedFields::one_removed))]
fn removals(alloc: Global, fields: &[ByteString]) -> Result<FieldChanges, AllocError>
    ensures each { IfOk result (λ changes. RemovesEach changes.items) }
    ensures same { IfOk result (λ changes. RemoveFields fields.now changes.items) }
{
    match fields {
        [field] => one_removal(alloc, field),
        _ => removals_once(alloc, fields),
    }
}

// It takes no memory but for the change.
fn one_removal(alloc: Global, field: &ByteString) -> Result<FieldChanges, AllocError>
    ensures { IfOk result (λ changes. changes.items ≡ removals (field.now ∷ [])) }
{
    let mut changes = Vec::with_capacity(alloc, 1)?;
    changes.push((field.clone()?, None))?;
    Ok(changes)
}

// Each field without a value, where it is named first.
fn removals_once(alloc: Global, fields: &[ByteString]) -> Result<FieldChanges, AllocError>
    ensures each { IfOk result (λ changes. RemovesEach changes.items) }
    ensures same { IfOk result (λ changes. RemoveFields fields.now changes.items) }
{
    let mut named = IndexSet::new(alloc);
    let mut changes = Vec::with_capacity(alloc, fields.len())?;
    for field in fields {
        name(&mut named, &mut changes, field)?;
    }
    Ok(changes)
}

// One field more is named, and removed unless it was named before.
fn name(
    named: &mut IndexSet<ByteString>,
    changes: &mut FieldChanges,
    field: &ByteString,
) -> Result<(), AllocError>
    requires { changes.old.items ≡ removals named.old.keys }
    ensures removed { OnOk result (changes.new.items ≡ removals named.new.keys) }
    ensures named { OnOk result (named.new.keys ≡ insert_key (pointwise nat_eq) named.old.keys field.now) }
    ensures distinct { OnOk result (IsDistinct (pointwise nat_eq) named.new.keys) }
{
    if named.insert(field.clone()?)? {
        changes.push((field.clone()?, None))?;
    }
    Ok(())
}

// How many of the changes are of a field that the hash has.
fn count_there(hash: Option<&Hash>, changes: &[(ByteString, Option<ByteString>)]) -> usize
    ensures { result ≡ count_by (λ change. is_some (value_of (fields_in hash.entry) change.0)) changes.now }
{
    changes
        .iter()
        .filter(|(field, _)| value_in(hash, field).is_some())
        .count()
}
