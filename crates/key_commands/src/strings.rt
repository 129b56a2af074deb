//! The commands on strings, and those on keys with values of any type.
ghost use Rattle.std.specs.Prelude.{◌≡◌, ◌<◌, ◌∷◌, [], ◌^◌, OnOk, IfOk, IsTrue, Some, codes, count_by, is_some};
ghost use Rattle.std.specs.Option.{option_copied};
ghost use Rattle.std.specs.FinMap as map;
ghost use Rattle.std.specs.Fmt.{signed_decimal};
ghost use Rattle.command_table.specs.declared.command.DataCommand.TheVariants.{Append, Del, Exists, Get, Getdel, Getset, Incrby, Mget, Mset, Set, Setnx, Strlen, TypeOf};
ghost use Rattle.keyspace.specs.Changes.{applied, with_string};
ghost use Rattle.keyspace.specs.Commands.{values_at};
ghost use Rattle.key_commands.specs.Planning.{count_at, AddsToNumber, Leaves, Plans, PlansAnywhere, PlansSettled, Replies};
ghost use Rattle.keyspace.specs.Strings.{bulk_or_null, holds, is_hash, is_string, number_at, string_of, string_reply, sum_of, type_of};
ghost use Rattle.resp_values.specs.Line.{is_one_line};

use crate::number::{sum, text_of};
use crate::replies::{integer, simple};
use byte_string::ByteString;
use command_table::{Condition, ErrorLine, PairList, number_in};
use keyspace::{NewValues, Plan, Store, Value, copied_pairs, length_fits};
use resp_values::{Array, Reply};
use std::alloc::{AllocError, Global};

#[inline(never)]
pub(crate) fn ping() -> Result<Reply, AllocError>
    ensures { IfOk result (λ reply. reply ≡ Reply.Simple (codes "PONG")) }
{
    Ok(simple(b"PONG"))
}

#[inline(never)]
pub(crate) fn echo(message: &ByteString) -> Result<Reply, AllocError>
    ensures { IfOk result (λ reply. reply ≡ Reply.Bulk message.now) }
{
    Ok(Reply::Bulk(message.clone()?))
}

#[inline(never)]
pub(crate) fn get<S: Store>(
    store: &S,
    values: &NewValues,
    key: &ByteString,
) -> Result<Reply, AllocError>
    ensures { Replies (S.contents store.now) values.now (Get key.now) result }
{
    string_reply(values.look(store, key))
}

// The string at each of the keys, once all changes are made.
#[inline(never)]
#[tactic(auto, using(keyspace::proofs::Applied::applied_empty))]
pub(crate) fn strings_at<S: Store>(
    alloc: Global,
    store: &S,
    values: &NewValues,
    keys: &[ByteString],
) -> Result<Reply, AllocError>
    ensures { Replies (S.contents store.now) values.now (Mget keys.now) result }
{
    let mut strings = Vec::with_capacity(alloc, keys.len())?;
    for key in keys {
        strings.push(bulk_or_null(values.look(store, key))?)?;
    }
    Ok(Reply::Array(Array::of(alloc, strings)?))
}

// SET where the condition holds.
#[inline(never)]
#[tactic(auto, using(keyspace::proofs::Applied::applied_insert))]
pub(crate) fn set<S: Store>(
    store: &S,
    values: &mut NewValues,
    key: &ByteString,
    value: &ByteString,
    condition: Condition,
) -> Result<Reply, AllocError>
    ensures { Plans (S.contents store.now) values.old values.new (Set key.now value.now condition) result }
{
    if condition != Condition::Always && !holds(condition, values.look(store, key)) {
        return Ok(Reply::Null);
    }
    put_copy(values, key, value)?;
    Ok(simple(b"OK"))
}

// Whether the condition of SET holds at the value that is there.
fn holds(condition: Condition, value: Option<&Value>) -> bool
    ensures { result ≡ holds condition (option_copied value.entry) }
{
    match condition {
        Condition::Always => true,
        Condition::IfMissing => value.is_none(),
        Condition::IfThere => value.is_some(),
    }
}

// Puts the string of each pair at its key, from left to right.
#[inline(never)]
#[tactic(auto, using(keyspace::proofs::Restored::strings_put))]
pub(crate) fn set_each(
    alloc: Global,
    plan: &mut Plan,
    pairs: &PairList,
) -> Result<Reply, AllocError>
    requires { plan.old.last ≡ None }
    ensures { PlansAnywhere plan.old plan.new (Mset pairs.now) result }
{
    plan.put_pairs(copied_pairs(alloc, pairs)?);
    Ok(simple(b"OK"))
}

#[inline(never)]
#[tactic(auto, using(keyspace::proofs::Applied::applied_insert))]
pub(crate) fn setnx<S: Store>(
    store: &S,
    values: &mut NewValues,
    key: &ByteString,
    value: &ByteString,
) -> Result<Reply, AllocError>
    ensures { Plans (S.contents store.now) values.old values.new (Setnx key.now value.now) result }
{
    if values.look(store, key).is_some() {
        return Ok(integer(0));
    }
    put_copy(values, key, value)?;
    Ok(integer(1))
}

#[inline(never)]
#[tactic(auto, using(keyspace::proofs::Applied::applied_insert, crate::proofs::Left::getset_hash, crate::proofs::Left::getset_other))]
pub(crate) fn getset<S: Store>(
    store: &S,
    values: &mut NewValues,
    key: &ByteString,
    value: &ByteString,
) -> Result<Reply, AllocError>
    ensures { Plans (S.contents store.now) values.old values.new (Getset key.now value.now) result }
{
    let old = values.look(store, key);
    let reply = string_reply(old)?;
    if is_hash(old) {
        return Ok(reply);
    }
    set_replying(values, key, value, reply)
}

#[inline(never)]
#[tactic(auto, using(keyspace::proofs::Applied::applied_insert, crate::proofs::Left::getdel_string, crate::proofs::Left::getdel_other))]
pub(crate) fn getdel<S: Store>(
    store: &S,
    values: &mut NewValues,
    key: &ByteString,
) -> Result<Reply, AllocError>
    ensures { Plans (S.contents store.now) values.old values.new (Getdel key.now) result }
{
    let old = values.look(store, key);
    let reply = string_reply(old)?;
    if !is_string(old) {
        return Ok(reply);
    }
    remove_replying(values, key, reply)
}

// Puts the bytes behind the string at the key.
#[inline(never)]
#[tactic(auto, using(keyspace::proofs::Committed::committed_values, crate::proofs::Left::appended_to))]
pub(crate) fn append<S: Store>(
    store: &S,
    plan: &mut Plan,
    key: &ByteString,
    value: &ByteString,
) -> Result<Reply, AllocError>
    requires { plan.old.last ≡ None }
    ensures { PlansSettled (S.contents store.now) plan.old plan.new (Append key.now value.now) result }
{
    let Some(old) = string_of(plan.values.look(store, key)) else {
        return Ok(ErrorLine::WrongType.reply());
    };
    let len = old.len().saturating_add(value.len());
    if !length_fits(key, len) {
        return Ok(ErrorLine::TooLong.reply());
    }
    plan.append(key.clone()?, value.clone()?);
    Ok(integer(len))
}

#[inline(never)]
pub(crate) fn incrby<S: Store>(
    alloc: Global,
    store: &S,
    values: &mut NewValues,
    key: &ByteString,
    increment: &ByteString,
) -> Result<Reply, AllocError>
    ensures { Plans (S.contents store.now) values.old values.new (Incrby key.now increment.now) result }
{
    let Some(increment) = number_in(increment.as_slice()) else {
        return Ok(ErrorLine::NotAnInteger.reply());
    };
    add(alloc, store, values, key, increment)
}

// Adds the increment to the number at the key.
#[inline(never)]
pub(crate) fn add<S: Store>(
    alloc: Global,
    store: &S,
    values: &mut NewValues,
    key: &ByteString,
    increment: i64,
) -> Result<Reply, AllocError>
    ensures { AddsToNumber (S.contents store.now) values.old values.new key.now increment result }
{
    match sum_at(values.look(store, key), increment) {
        Ok(sum) => put_number(alloc, values, key, sum),
        Err(fault) => Ok(fault.reply()),
    }
}

// The sum of the increment and the number of the string, or the fault that they have.
fn sum_at(value: Option<&Value>, increment: i64) -> Result<i64, ErrorLine>
    ensures { result ≡ sum_of (Some increment) (number_at (option_copied value.entry)) }
{
    let stored = number_at(value)?;
    sum(stored, increment).ok_or(ErrorLine::Overflow)
}

// Puts the string at the key.
fn put(values: &mut NewValues, key: &ByteString, value: ByteString) -> Result<(), AllocError>
    ensures { OnOk result (values.new ≡ with_string values.old key.now value) }
{
    values.insert(key.clone()?, Some(Value::Str(value)))
}

// Puts a copy of the string at the key, and replies.
fn set_replying(
    values: &mut NewValues,
    key: &ByteString,
    value: &ByteString,
    reply: Reply,
) -> Result<Reply, AllocError>
    ensures reply { IfOk result (λ told. told ≡ reply) }
    ensures after { OnOk result (values.new ≡ with_string values.old key.now value.now) }
{
    put_copy(values, key, value)?;
    Ok(reply)
}

fn put_copy(values: &mut NewValues, key: &ByteString, value: &ByteString) -> Result<(), AllocError>
    ensures { OnOk result (values.new ≡ with_string values.old key.now value.now) }
{
    put(values, key, value.clone()?)
}

// Removes the key, and replies.
fn remove_replying(
    values: &mut NewValues,
    key: &ByteString,
    reply: Reply,
) -> Result<Reply, AllocError>
    ensures reply { IfOk result (λ told. told ≡ reply) }
    ensures after { OnOk result (values.new ≡ map.insert values.old key.now None) }
{
    remove(values, key)?;
    Ok(reply)
}

fn remove(values: &mut NewValues, key: &ByteString) -> Result<(), AllocError>
    ensures { OnOk result (values.new ≡ map.insert values.old key.now None) }
{
    values.insert(key.clone()?, None)
}

// Puts the text of the number at the key, and replies with the number.
fn put_number(
    alloc: Global,
    values: &mut NewValues,
    key: &ByteString,
    number: i64,
) -> Result<Reply, AllocError>
    ensures reply { IfOk result (λ reply. reply ≡ Reply.Integer number) }
    ensures after { OnOk result (values.new ≡ with_string values.old key.now (signed_decimal number)) }
{
    put(values, key, text_of(alloc, number)?)?;
    Ok(Reply::Integer(number))
}

// Removes the keys, and tells how many were there.
#[inline(never)]
pub(crate) fn delete<S: Store>(
    store: &S,
    values: &mut NewValues,
    keys: &[ByteString],
) -> Result<Reply, AllocError>
    ensures reply { Replies (S.contents store.now) values.old (Del keys.now) result }
    ensures after { OnOk result (Leaves (S.contents store.now) values.old values.new (Del keys.now)) }
{
    let mut count = 0;
    for key in keys {
        count += delete_key(store, values, key)?;
    }
    Ok(integer(count))
}

// Removes the key, and gives 1 where it was there, else 0.
#[tactic(auto, using(keyspace::proofs::Applied::applied_insert, keyspace::proofs::Removed::remove_absent))]
fn delete_key<S: Store>(
    store: &S,
    values: &mut NewValues,
    key: &ByteString,
) -> Result<usize, AllocError>
    ensures there { IfOk result (λ count. count ≡ count_at (S.contents store.now) values.old key.now) }
    ensures after { OnOk result (Leaves (S.contents store.now) values.old values.new (Del (key.now ∷ []))) }
{
    if values.look(store, key).is_none() {
        return Ok(0);
    }
    remove(values, key)?;
    Ok(1)
}

// How many of the keys are there once all changes are made. A repeated one counts again.
#[inline(never)]
pub(crate) fn exists<S: Store>(
    store: &S,
    values: &NewValues,
    keys: &[ByteString],
) -> Result<Reply, AllocError>
    ensures { Replies (S.contents store.now) values.now (Exists keys.now) result }
{
    Ok(integer(count_there(store, values, keys)))
}

fn count_there<S: Store>(store: &S, values: &NewValues, keys: &[ByteString]) -> usize
    ensures count { result ≡ count_by is_some (values_at (applied (S.contents store.now) values.now) keys.now) }
    ensures small { result < 2 ^ 63 }
{
    let mut count = 0;
    for key in keys {
        if values.look(store, key).is_some() {
            count += 1;
        }
    }
    count
}

// The number of bytes of the string at the key.
#[inline(never)]
pub(crate) fn len_at<S: Store>(
    store: &S,
    values: &NewValues,
    key: &ByteString,
) -> Result<Reply, AllocError>
    ensures { Replies (S.contents store.now) values.now (Strlen key.now) result }
{
    match string_of(values.look(store, key)) {
        Some(bytes) => Ok(integer(bytes.len())),
        None => Ok(ErrorLine::WrongType.reply()),
    }
}

// The name of the type of the value at the key.
#[inline(never)]
pub(crate) fn type_at<S: Store>(
    store: &S,
    values: &NewValues,
    key: &ByteString,
) -> Result<Reply, AllocError>
    ensures { Replies (S.contents store.now) values.now (TypeOf key.now) result }
{
    Ok(simple(type_of(values.look(store, key))))
}

// The string, of which a missing key counts as an empty one; None where the value is none.
fn string_of(value: Option<&Value>) -> Option<&[u8]>
    ensures { option_copied result ≡ string_of (option_copied value.entry) }
{
    match value {
        None => Some(b""),
        Some(Value::Str(bytes)) => Some(bytes.as_slice()),
        Some(Value::Hash(_)) => None,
    }
}

// The number of the string; a missing key counts as 0.
fn number_at(value: Option<&Value>) -> Result<i64, ErrorLine>
    ensures { result ≡ number_at (option_copied value.entry) }
{
    match value {
        None => Ok(0),
        Some(Value::Str(bytes)) => number_in(bytes.as_slice()).ok_or(ErrorLine::NotAnInteger),
        Some(Value::Hash(_)) => Err(ErrorLine::WrongType),
    }
}

fn is_string(value: Option<&Value>) -> bool
    ensures { result ≡ is_string (option_copied value.entry) }
{
    matches!(value, Some(Value::Str(_)))
}

fn is_hash(value: Option<&Value>) -> bool
    ensures { result ≡ is_hash (option_copied value.entry) }
{
    matches!(value, Some(Value::Hash(_)))
}

fn type_of(value: Option<&Value>) -> &'static [u8]
    ensures name { result.now ≡ type_of (option_copied value.entry) }
    ensures line { IsTrue (is_one_line result.now) }
{
    match value {
        None => b"none",
        Some(Value::Str(_)) => b"string",
        Some(Value::Hash(_)) => b"hash",
    }
}

// The reply shares a long string with the store.
#[inline(always)]
fn string_reply(value: Option<&Value>) -> Result<Reply, AllocError>
    ensures { IfOk result (λ reply. reply ≡ string_reply (option_copied value.entry)) }
{
    match value {
        None => Ok(Reply::Null),
        Some(Value::Str(bytes)) => Ok(Reply::Bulk(bytes.clone()?)),
        Some(Value::Hash(_)) => Ok(ErrorLine::WrongType.reply()),
    }
}

// The same, but for null in the place of a value of another type.
fn bulk_or_null(value: Option<&Value>) -> Result<Reply, AllocError>
    ensures { IfOk result (λ reply. reply ≡ bulk_or_null (option_copied value.entry)) }
{
    match value {
        Some(Value::Str(bytes)) => Ok(Reply::Bulk(bytes.clone()?)),
        None | Some(Value::Hash(_)) => Ok(Reply::Null),
    }
}
