//! Changes of a hash that a command works out before it plans them.
ghost use Rattle.std.specs.Prelude.{◌≡◌, ◌∷◌, ◌-◌, ◌<◌, ◌^◌, [], None, Some, length, IfOk};
ghost use Rattle.key_commands.specs.HashChanges.{IsChange, LeavesChange, SetsEach};
ghost use Rattle.keyspace.specs.Hashes.{fields_after, fields_in, sets};

use byte_string::ByteString;
use command_table::{ErrorLine, PairList, split_pair};
use hash::{Extent, Hash};
use keyspace::{FieldChanges, Plan, PlannedFields, extent_after, hash_fits, len_of};
use resp_values::Reply;
use std::alloc::{AllocError, Global};

/// Changes of a hash, what it takes after them, and the number that the command replies.
#[derive(Drop)]
pub(crate) struct HashChange {
    changes: PlannedFields,
    extent: Extent,
    reply: i64,
}

impl HashChange {
    /// All fields set. The reply is how many of them are new.
    pub(crate) fn setting_each(
        alloc: Global,
        hash: Option<&Hash>,
        pairs: &PairList,
    ) -> Result<HashChange, AllocError>
        ensures { IfOk result (SetsEach (fields_in hash.entry) pairs.now) }
    {
        let changes = sets(alloc, pairs)?;
        let extent = extent_after(alloc, hash, changes.as_slice())?;
        let added = fields_added(hash, extent, changes.as_slice());
        Ok(HashChange {
            changes: PlannedFields::new(changes),
            extent,
            reply: added as i64,
        })
    }

    /// One field set.
    #[tactic(auto, using(keyspace::proofs::RemovedFields::set_planned))]
    pub(crate) fn setting(
        alloc: Global,
        hash: Option<&Hash>,
        field: &ByteString,
        value: ByteString,
        reply: i64,
    ) -> Result<HashChange, AllocError>
        ensures { IfOk result (IsChange (fields_in hash.entry) ((field.now, Some value) ∷ []) reply) }
    {
        let changes = one_set(alloc, field, value)?;
        let extent = extent_after(alloc, hash, changes.as_slice())?;
        Ok(HashChange {
            changes: PlannedFields::new(changes),
            extent,
            reply,
        })
    }

    /// Plans the changes, where what they leave may stand at the key.
    #[tactic(auto, using(keyspace::proofs::Committed::committed_values, crate::proofs::Left::fields_left_of))]
    pub(crate) fn leave(self, plan: &mut Plan, key: &ByteString) -> Result<Reply, AllocError>
        requires { plan.old.last ≡ None }
        ensures { LeavesChange plan.old plan.new key.now self result }
    {
        let HashChange {
            changes,
            extent,
            reply,
        } = self;
        if !hash_fits(key, extent) {
            return Ok(ErrorLine::TooLong.reply());
        }
        plan.change_fields(key, changes)?;
        Ok(Reply::Integer(reply))
    }
}

// How many fields more the hash has after the changes. Each change adds one at most, and takes memory.
#[tactic(auto, using(crate::proofs::Left::len_changed))]
fn fields_added(
    hash: Option<&Hash>,
    extent: Extent,
    changes: &[(ByteString, Option<ByteString>)],
) -> usize
    requires { extent.len ≡ length (fields_after hash changes.now) }
    ensures count { result ≡ length (fields_after hash.entry changes.now) - length (fields_in hash.entry) }
    ensures small { result < 2 ^ 63 }
{
    prove!(changes.len() < 1 << 60);
    extent.len.saturating_sub(len_of(hash))
}

// Each field with its value.
fn sets(alloc: Global, pairs: &PairList) -> Result<FieldChanges, AllocError>
    ensures { IfOk result (λ changes. changes.items ≡ sets pairs.now) }
{
    let mut rest = pairs.words();
    let mut changes = Vec::with_capacity(alloc, rest.len() / 2)?;
    while let Some((field, value, others)) = split_pair(rest) {
        changes.push((field.clone()?, Some(value.clone()?)))?;
        rest = others;
    }
    Ok(changes)
}

// One field with its value.
fn one_set(alloc: Global, field: &ByteString, value: ByteString) -> Result<FieldChanges, AllocError>
    ensures { IfOk result (λ changes. changes.items ≡ (field.now, Some value) ∷ []) }
{
    let mut changes = Vec::with_capacity(alloc, 1)?;
    changes.push((field.clone()?, Some(value)))?;
    Ok(changes)
}
