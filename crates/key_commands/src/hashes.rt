//! The commands on hashes. A missing key counts as a hash without fields.
ghost use Rattle.std.specs.Prelude.{◌≡◌, [], IfOk, None, Some, pos};
ghost use Rattle.std.specs.Prelude.{map as each};
ghost use Rattle.command_table.specs.declared.command.DataCommand.TheVariants.{Hdel, Hexists, Hget, Hgetall, Hincrby, Hkeys, Hlen, Hmget, Hset, Hsetnx, Hstrlen, Hvals};
ghost use Rattle.hash.specs.Size.{words_of};
ghost use Rattle.keyspace.specs.Hashes.{bulks_reply, exists_reply, fields_in, value_length, value_reply, values_reply};
ghost use Rattle.key_commands.specs.Planning.{AddsToField, PlansSettled, Replies};
ghost use Rattle.keyspace.specs.Strings.{stored_number, sum_of};

use crate::hash_changes::HashChange;
use crate::number::{sum, text_of};
use crate::replies::integer;
use byte_string::ByteString;
use command_table::{ErrorLine, PairList, number_in};
use hash::{Hash, Word};
use keyspace::{NewValues, Plan, PlannedFields, Store, hash_in, len_of, value_in};
use resp_values::{Array, Reply};
use std::alloc::{AllocError, Global};

#[inline(never)]
pub(crate) fn get<S: Store>(
    alloc: Global,
    store: &S,
    values: &NewValues,
    key: &ByteString,
    field: &ByteString,
) -> Result<Reply, AllocError>
    ensures { Replies (S.contents store.now) values.now (Hget key.now field.now) result }
{
    match hash_in(values.look(store, key)) {
        Ok(hash) => value_reply(alloc, value_in(hash, field)),
        Err(fault) => Ok(fault.reply()),
    }
}

#[inline(never)]
pub(crate) fn get_each<S: Store>(
    alloc: Global,
    store: &S,
    values: &NewValues,
    key: &ByteString,
    fields: &[ByteString],
) -> Result<Reply, AllocError>
    ensures { Replies (S.contents store.now) values.now (Hmget key.now fields.now) result }
{
    match hash_in(values.look(store, key)) {
        Ok(hash) => values_reply(alloc, hash, fields),
        Err(fault) => Ok(fault.reply()),
    }
}

fn values_reply(
    alloc: Global,
    hash: Option<&Hash>,
    fields: &[ByteString],
) -> Result<Reply, AllocError>
    ensures { IfOk result (λ reply. reply ≡ values_reply fields.now (fields_in hash.entry)) }
{
    let mut replies = Vec::with_capacity(alloc, fields.len())?;
    for field in fields {
        replies.push(value_reply(alloc, value_in(hash, field))?)?;
    }
    Ok(Reply::Array(Array::of(alloc, replies)?))
}

#[inline(never)]
pub(crate) fn exists<S: Store>(
    store: &S,
    values: &NewValues,
    key: &ByteString,
    field: &ByteString,
) -> Result<Reply, AllocError>
    ensures { Replies (S.contents store.now) values.now (Hexists key.now field.now) result }
{
    match hash_in(values.look(store, key)) {
        Ok(hash) => Ok(exists_reply(value_in(hash, field))),
        Err(fault) => Ok(fault.reply()),
    }
}

fn exists_reply(value: Option<Word<'_>>) -> Reply
    ensures { result ≡ exists_reply value.entry }
{
    match value {
        Some(_) => integer(1),
        None => integer(0),
    }
}

#[inline(never)]
pub(crate) fn len<S: Store>(
    store: &S,
    values: &NewValues,
    key: &ByteString,
) -> Result<Reply, AllocError>
    ensures { Replies (S.contents store.now) values.now (Hlen key.now) result }
{
    match hash_in(values.look(store, key)) {
        Ok(hash) => Ok(integer(len_of(hash))),
        Err(fault) => Ok(fault.reply()),
    }
}

#[inline(never)]
pub(crate) fn value_len<S: Store>(
    store: &S,
    values: &NewValues,
    key: &ByteString,
    field: &ByteString,
) -> Result<Reply, AllocError>
    ensures { Replies (S.contents store.now) values.now (Hstrlen key.now field.now) result }
{
    match hash_in(values.look(store, key)) {
        Ok(hash) => Ok(length_reply(value_in(hash, field))),
        Err(fault) => Ok(fault.reply()),
    }
}

fn length_reply(value: Option<Word<'_>>) -> Reply
    ensures { result ≡ Reply.Integer (pos (value_length value.entry)) }
{
    match value {
        Some(value) => integer(value.as_slice().len()),
        None => integer(0),
    }
}

#[inline(never)]
pub(crate) fn fields<S: Store>(
    alloc: Global,
    store: &S,
    values: &NewValues,
    key: &ByteString,
) -> Result<Reply, AllocError>
    ensures { Replies (S.contents store.now) values.now (Hkeys key.now) result }
{
    match hash_in(values.look(store, key)) {
        Ok(Some(hash)) => each_field(alloc, hash),
        Ok(None) => no_values(alloc),
        Err(fault) => Ok(fault.reply()),
    }
}

fn each_field(alloc: Global, hash: &Hash) -> Result<Reply, AllocError>
    ensures { IfOk result (λ reply. reply ≡ bulks_reply (each (λ pair. pair.0) hash.now)) }
{
    let mut replies = Vec::with_capacity(alloc, hash.len())?;
    for (field, _) in hash.iter() {
        replies.push(Reply::Bulk(field.to_byte_string(alloc)?))?;
    }
    Ok(Reply::Array(Array::of(alloc, replies)?))
}

#[inline(never)]
pub(crate) fn values<S: Store>(
    alloc: Global,
    store: &S,
    values: &NewValues,
    key: &ByteString,
) -> Result<Reply, AllocError>
    ensures { Replies (S.contents store.now) values.now (Hvals key.now) result }
{
    match hash_in(values.look(store, key)) {
        Ok(Some(hash)) => each_value(alloc, hash),
        Ok(None) => no_values(alloc),
        Err(fault) => Ok(fault.reply()),
    }
}

fn each_value(alloc: Global, hash: &Hash) -> Result<Reply, AllocError>
    ensures { IfOk result (λ reply. reply ≡ bulks_reply (each (λ pair. pair.1) hash.now)) }
{
    let mut replies = Vec::with_capacity(alloc, hash.len())?;
    for (_, value) in hash.iter() {
        replies.push(Reply::Bulk(value.to_byte_string(alloc)?))?;
    }
    Ok(Reply::Array(Array::of(alloc, replies)?))
}

#[inline(never)]
pub(crate) fn pairs<S: Store>(
    alloc: Global,
    store: &S,
    values: &NewValues,
    key: &ByteString,
) -> Result<Reply, AllocError>
    ensures { Replies (S.contents store.now) values.now (Hgetall key.now) result }
{
    match hash_in(values.look(store, key)) {
        Ok(Some(hash)) => each_pair(alloc, hash),
        Ok(None) => no_values(alloc),
        Err(fault) => Ok(fault.reply()),
    }
}

fn each_pair(alloc: Global, hash: &Hash) -> Result<Reply, AllocError>
    ensures { IfOk result (λ reply. reply ≡ bulks_reply (words_of hash.now)) }
{
    let mut replies = Vec::new(alloc);
    for (field, value) in hash.iter() {
        replies.push(Reply::Bulk(field.to_byte_string(alloc)?))?;
        replies.push(Reply::Bulk(value.to_byte_string(alloc)?))?;
    }
    Ok(Reply::Array(Array::of(alloc, replies)?))
}

fn no_values(alloc: Global) -> Result<Reply, AllocError>
    ensures { IfOk result (λ reply. reply ≡ bulks_reply []) }
{
    Ok(Reply::Array(Array::of(alloc, Vec::new(alloc))?))
}

// Sets all fields.
#[inline(never)]
#[tactic(auto, using(keyspace::proofs::Committed::committed_values, crate::proofs::Left::fields_left_of))]
pub(crate) fn set<S: Store>(
    alloc: Global,
    store: &S,
    plan: &mut Plan,
    key: &ByteString,
    pairs: &PairList,
) -> Result<Reply, AllocError>
    requires { plan.old.last ≡ None }
    ensures { PlansSettled (S.contents store.now) plan.old plan.new (Hset key.now pairs.now) result }
{
    let hash = match hash_in(plan.values.look(store, key)) {
        Ok(hash) => hash,
        Err(fault) => return Ok(fault.reply()),
    };
    let change = HashChange::setting_each(alloc, hash, pairs)?;
    change.leave(plan, key)
}

// Sets a field that is missing.
#[inline(never)]
#[tactic(auto, using(keyspace::proofs::Committed::committed_values, crate::proofs::Left::fields_left_of))]
pub(crate) fn set_new<S: Store>(
    alloc: Global,
    store: &S,
    plan: &mut Plan,
    key: &ByteString,
    field: &ByteString,
    value: &ByteString,
) -> Result<Reply, AllocError>
    requires { plan.old.last ≡ None }
    ensures { PlansSettled (S.contents store.now) plan.old plan.new (Hsetnx key.now field.now value.now) result }
{
    let hash = match hash_in(plan.values.look(store, key)) {
        Ok(hash) => hash,
        Err(fault) => return Ok(fault.reply()),
    };
    if value_in(hash, field).is_some() {
        return Ok(integer(0));
    }
    let change = HashChange::setting(alloc, hash, field, value.clone()?, 1)?;
    change.leave(plan, key)
}

// Removes all fields that are there.
#[inline(never)]
#[tactic(auto, using(keyspace::proofs::Committed::committed_values, crate::proofs::Left::fields_left_of))]
pub(crate) fn delete<S: Store>(
    alloc: Global,
    store: &S,
    plan: &mut Plan,
    key: &ByteString,
    fields: &[ByteString],
) -> Result<Reply, AllocError>
    requires { plan.old.last ≡ None }
    ensures { PlansSettled (S.contents store.now) plan.old plan.new (Hdel key.now fields.now) result }
{
    let hash = match hash_in(plan.values.look(store, key)) {
        Ok(hash) => hash,
        Err(fault) => return Ok(fault.reply()),
    };
    let removals = PlannedFields::removing(alloc, fields)?;
    let count = removals.count_removed(hash);
    plan.change_fields(key, removals)?;
    Ok(integer(count))
}

// Adds to the number in a field.
#[inline(never)]
#[tactic(auto, using(keyspace::proofs::Committed::committed_values, crate::proofs::Left::fields_left_of))]
pub(crate) fn add<S: Store>(
    alloc: Global,
    store: &S,
    plan: &mut Plan,
    key: &ByteString,
    field: &ByteString,
    increment: &ByteString,
) -> Result<Reply, AllocError>
    requires { plan.old.last ≡ None }
    ensures { PlansSettled (S.contents store.now) plan.old plan.new (Hincrby key.now field.now increment.now) result }
{
    let Some(increment) = number_in(increment.as_slice()) else {
        return Ok(ErrorLine::NotAnInteger.reply());
    };
    add_number(alloc, store, plan, key, field, increment)
}

#[tactic(auto, using(keyspace::proofs::Committed::committed_values, crate::proofs::Left::sum_left, crate::proofs::Left::sum_refused))]
fn add_number<S: Store>(
    alloc: Global,
    store: &S,
    plan: &mut Plan,
    key: &ByteString,
    field: &ByteString,
    increment: i64,
) -> Result<Reply, AllocError>
    requires { plan.old.last ≡ None }
    ensures { AddsToField (S.contents store.now) plan.old plan.new key.now field.now increment result }
{
    let hash = match hash_in(plan.values.look(store, key)) {
        Ok(hash) => hash,
        Err(fault) => return Ok(fault.reply()),
    };
    let sum = match sum_in(value_in(hash, field), increment) {
        Ok(sum) => sum,
        Err(fault) => return Ok(fault.reply()),
    };
    let change = HashChange::setting(alloc, hash, field, text_of(alloc, sum)?, sum)?;
    change.leave(plan, key)
}

// The sum of the increment and the number of a stored value, of which a missing one counts as 0, or the fault that they have.
fn sum_in(value: Option<Word<'_>>, increment: i64) -> Result<i64, ErrorLine>
    ensures { result ≡ sum_of (Some increment) (stored_number ErrorLine.HashNotAnInteger value.entry) }
{
    let stored = match value {
        Some(value) => number_in(value.as_slice()).ok_or(ErrorLine::HashNotAnInteger)?,
        None => 0,
    };
    sum(stored, increment).ok_or(ErrorLine::Overflow)
}

fn value_reply(alloc: Global, value: Option<Word<'_>>) -> Result<Reply, AllocError>
    ensures { IfOk result (λ reply. reply ≡ value_reply value.entry) }
{
    match value {
        Some(value) => Ok(Reply::Bulk(value.to_byte_string(alloc)?)),
        None => Ok(Reply::Null),
    }
}
