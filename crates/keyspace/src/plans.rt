//! A plan: what commands change, decided and not made yet, and its commit.
ghost use Rattle.std.specs.Prelude.{◌≡◌, None, IfOk, OnOk, OnErr};
ghost use Rattle.keyspace.specs.Keyspace.{Keyspace};
ghost use Rattle.keyspace.specs.Plan.{committed, with_both, with_step, AddsStep, EndsWith, Settles};
ghost use Rattle.keyspace.specs.Putting.{with_pairs};
ghost use Rattle.keyspace.specs.declared.plans.LastStep.TheVariants.{Append, Fields, Pairs};

use crate::appending::appended;
use crate::changes::NewValues;
use crate::fields::{FieldChanges, with_changed_fields};
use crate::planned_fields::PlannedFields;
use crate::putting::{ValuePairs, put_pairs};
use crate::store::Store;
use crate::value::Value;
use byte_string::ByteString;
use std::alloc::{AllocError, Global};

/// What is made after the new values are put.
#[derive(Drop)]
pub enum LastStep {
    /// Bytes are put behind the string at a key.
    Append(ByteString, ByteString),
    /// Fields of the hash at a key are changed.
    Fields(ByteString, PlannedFields),
    /// Values are put at keys, from left to right.
    Pairs(ValuePairs),
}

/// Changes that are decided and not made yet. A plan with one change allocates nothing for itself.
pub struct Plan {
    /// New values, which are put first.
    pub values: NewValues,
    /// What the latest command changes in a way of its own.
    pub last: Option<LastStep>,
}

impl Drop for Plan {
    fn drop(self) {
        let Plan { values: _, last: _ } = self;
    }
}

impl Plan {
    /// A plan that changes nothing.
    #[tactic(auto, using(crate::proofs::Applied::applied_empty, crate::proofs::Committed::committed_values))]
    pub fn new(alloc: Global) -> Plan
        ensures { (keyspace : Keyspace) → committed keyspace result ≡ keyspace }
    {
        Plan {
            values: NewValues::new(alloc),
            last: None,
        }
    }

    /// A plan that puts these values at their keys, one after another. It takes no memory.
    pub fn putting(alloc: Global, pairs: Vec<(ByteString, Value)>) -> Plan
        ensures { (keyspace : Keyspace) → committed keyspace result ≡ with_pairs keyspace pairs.items }
    {
        Plan {
            values: NewValues::new(alloc),
            last: Some(LastStep::Pairs(pairs)),
        }
    }

    /// Puts bytes behind the string at the key. No other step is planned.
    pub fn append(&mut self, key: ByteString, bytes: ByteString)
        requires { self.old.last ≡ None }
        ensures { EndsWith self.old self.new (Append key bytes) }
    {
        self.end_with(LastStep::Append(key, bytes));
    }

    /// Changes fields of the hash at the key. No other step is planned.
    pub fn change_fields(
        &mut self,
        key: &ByteString,
        changes: PlannedFields,
    ) -> Result<(), AllocError>
        requires { self.old.last ≡ None }
        ensures { OnOk result (EndsWith self.old self.new (Fields key.now changes)) }
    {
        self.end_with(LastStep::Fields(key.clone()?, changes));
        Ok(())
    }

    /// Puts values at keys, from left to right. No other step is planned.
    pub fn put_pairs(&mut self, pairs: ValuePairs)
        requires { self.old.last ≡ None }
        ensures { EndsWith self.old self.new (Pairs pairs) }
    {
        self.end_with(LastStep::Pairs(pairs));
    }

    fn end_with(&mut self, step: LastStep)
        requires { self.old.last ≡ None }
        ensures { EndsWith self.old self.new step }
    {
        self.last = Some(step);
    }

    /// Makes new values of what the last step changes, so that a later command can read them.
    #[tactic(auto, using(crate::proofs::Committed::committed_values, crate::proofs::Committed::committed_step))]
    pub fn settle<S: Store>(&mut self, alloc: Global, store: &S) -> Result<(), AllocError>
        ensures last { OnOk result (self.new.last ≡ None) }
        ensures values { OnOk result (Settles (S.contents store.now) self.old self.new) }
    {
        match self.last.take() {
            None => Ok(()),
            Some(step) => settle_step(alloc, store, &mut self.values, step),
        }
    }

    #[tactic(auto, using(crate::proofs::Committed::committed_values, crate::proofs::Committed::committed_step))]
    fn make<S: Store>(self, alloc: Global, store: &mut S) -> Result<(), AllocError>
        ensures ok { OnOk result (S.contents store.new ≡ committed (S.contents store.old) self) }
        ensures err { OnErr result (S.contents store.new ≡ S.contents store.old) }
    {
        let Plan { values, last } = self;
        match last {
            None => values.put(alloc, store),
            Some(step) => put_and_step(alloc, store, values, step),
        }
    }
}

#[inline(never)]
fn settle_step<S: Store>(
    alloc: Global,
    store: &S,
    values: &mut NewValues,
    step: LastStep,
) -> Result<(), AllocError>
    ensures { OnOk result (AddsStep (S.contents store.now) values.old values.new step) }
{
    match step {
        LastStep::Append(key, bytes) => put_appended(alloc, store, values, key, bytes),
        LastStep::Fields(key, changes) => put_changed(store, values, key, changes.into_changes()),
        LastStep::Pairs(pairs) => values.insert_each(pairs),
    }
}

// The longer string goes to the other new values.
#[tactic(auto, using(crate::proofs::Applied::applied_insert))]
fn put_appended<S: Store>(
    alloc: Global,
    store: &S,
    values: &mut NewValues,
    key: ByteString,
    bytes: ByteString,
) -> Result<(), AllocError>
    ensures { OnOk result (AddsStep (S.contents store.now) values.old values.new (Append key bytes)) }
{
    let value = appended(alloc, values.look(store, &key), bytes)?;
    values.insert(key, Some(value))
}

// The changed value goes to the other new values.
#[tactic(auto, using(crate::proofs::Applied::applied_insert))]
fn put_changed<S: Store>(
    store: &S,
    values: &mut NewValues,
    key: ByteString,
    changes: FieldChanges,
) -> Result<(), AllocError>
    ensures { OnOk result (AddsStep (S.contents store.now) values.old values.new (Fields key changes.items)) }
{
    let value = with_changed_fields(values.look(store, &key), changes)?;
    values.insert(key, value)
}

/// Makes all changes of the plan, or none where an allocation fails.
///
/// A plan with one change walks down the store once, and one that appends to a string or changes fields of a hash does
/// so in place.
pub fn commit<S: Store>(alloc: Global, store: &mut S, plan: Plan) -> Result<(), AllocError>
    ensures ok { OnOk result (S.contents store.new ≡ committed (S.contents store.old) plan) }
    ensures err { OnErr result (S.contents store.new ≡ S.contents store.old) }
{
    plan.make(alloc, store)
}

fn put_and_step<S: Store>(
    alloc: Global,
    store: &mut S,
    values: NewValues,
    step: LastStep,
) -> Result<(), AllocError>
    ensures ok { OnOk result (S.contents store.new ≡ with_both (S.contents store.old) values step) }
    ensures err { OnErr result (S.contents store.new ≡ S.contents store.old) }
{
    if values.is_empty() {
        return make_step(alloc, store, step);
    }
    put_settled(alloc, store, values, step)
}

fn make_step<S: Store>(alloc: Global, store: &mut S, step: LastStep) -> Result<(), AllocError>
    ensures ok { OnOk result (S.contents store.new ≡ with_step (S.contents store.old) step) }
    ensures err { OnErr result (S.contents store.new ≡ S.contents store.old) }
{
    match step {
        LastStep::Append(key, bytes) => store.append(alloc, key, bytes),
        LastStep::Fields(key, changes) => store.change_fields(key, changes.into_changes()),
        LastStep::Pairs(pairs) => put_pairs(alloc, store, pairs),
    }
}

// The step makes new values, which are put with the others.
fn put_settled<S: Store>(
    alloc: Global,
    store: &mut S,
    mut values: NewValues,
    step: LastStep,
) -> Result<(), AllocError>
    ensures ok { OnOk result (S.contents store.new ≡ with_both (S.contents store.old) values step) }
    ensures err { OnErr result (S.contents store.new ≡ S.contents store.old) }
{
    settle_step(alloc, store, &mut values, step)?;
    values.put(alloc, store)
}
