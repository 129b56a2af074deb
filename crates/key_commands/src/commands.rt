//! The command table in code: what each command replies and changes, over any store.
ghost use Rattle.std.specs.Prelude.{◌≡◌, ◌∷◌, ◌++◌, [], None, OnOk, OnErr, IfOk, IsTrue};
ghost use Rattle.key_commands.specs.CommandGroups.{is_on_hash, is_on_string};
ghost use Rattle.keyspace.specs.Commands.{exec, replies_of};
ghost use Rattle.keyspace.specs.Plan.{committed};
ghost use Rattle.key_commands.specs.Planning.{Executes, Extends, IsPlanOf, PlansNext, PlansSettled, RepliesEach};

use crate::{hashes, strings};
use command_table::DataCommand;
use keyspace::{Plan, Store, commit};
use resp_values::Reply;
use std::alloc::{AllocError, Global};

#[tactic(auto, using(keyspace::proofs::Applied::applied_empty))]
/// The replies to commands one after another, and the changes that they make. The store stays as it is.
pub fn plan<S: Store>(
    alloc: Global,
    store: &S,
    commands: &[DataCommand],
) -> Result<(Vec<Reply>, Plan), AllocError>
    ensures replies { IfOk result (λ planned.
        planned.0.items ≡ replies_of (S.contents store.now) commands.now) }
    ensures after { IfOk result (λ planned. IsPlanOf (S.contents store.now) commands.now planned.1) }
{
    let mut plan = Plan::new(alloc);
    let replies = plan_each(alloc, store, &mut plan, commands)?;
    Ok((replies, plan))
}

// Plans the commands one after another.
fn plan_each<S: Store>(
    alloc: Global,
    store: &S,
    plan: &mut Plan,
    commands: &[DataCommand],
) -> Result<Vec<Reply>, AllocError>
    ensures replies { RepliesEach (S.contents store.now) plan.old commands.now result }
    ensures after { OnOk result (Extends (S.contents store.now) plan.old plan.new commands.now) }
{
    let mut replies = Vec::with_capacity(alloc, commands.len())?;
    for command in commands {
        plan_next(alloc, store, plan, &mut replies, command)?;
    }
    Ok(replies)
}

fn plan_next<S: Store>(
    alloc: Global,
    store: &S,
    plan: &mut Plan,
    replies: &mut Vec<Reply>,
    command: &DataCommand,
) -> Result<(), AllocError>
    ensures reply { OnOk result (replies.new.items
        ≡ replies.old.items ++ (exec (committed (S.contents store.now) plan.old) command.now).reply ∷ []) }
    ensures after { OnOk result (Extends (S.contents store.now) plan.old plan.new (command.now ∷ [])) }
{
    let reply = plan_command(alloc, store, plan, command)?;
    replies.push(reply)?;
    Ok(())
}

#[tactic(auto, using(keyspace::proofs::Applied::applied_empty))]
/// Executes the command: all of it, or nothing where an allocation fails.
pub fn exec<S: Store>(
    alloc: Global,
    store: &mut S,
    command: &DataCommand,
) -> Result<Reply, AllocError>
    ensures reply { Executes (S.contents store.old) (S.contents store.new) command.now result }
    ensures err { OnErr result (S.contents store.new ≡ S.contents store.old) }
{
    let mut plan = Plan::new(alloc);
    let reply = plan_command(alloc, store, &mut plan, command)?;
    commit_replying(alloc, store, plan, reply)
}

fn commit_replying<S: Store>(
    alloc: Global,
    store: &mut S,
    plan: Plan,
    reply: Reply,
) -> Result<Reply, AllocError>
    ensures reply { IfOk result (λ told. told ≡ reply) }
    ensures ok { OnOk result (S.contents store.new ≡ committed (S.contents store.old) plan) }
    ensures err { OnErr result (S.contents store.new ≡ S.contents store.old) }
{
    commit(alloc, store, plan)?;
    Ok(reply)
}

/// The reply to the command after those whose changes are in the plan. Its own changes go into the plan, and the store
/// stays as it is.
pub fn plan_command<S: Store>(
    alloc: Global,
    store: &S,
    plan: &mut Plan,
    command: &DataCommand,
) -> Result<Reply, AllocError>
    ensures { PlansNext (S.contents store.now) plan.old plan.new command.now result }
{
    plan.settle(alloc, store)?;
    plan_settled(alloc, store, plan, command)
}

// No last step is planned. No command's function is inlined: so the frame of each request stays small.
#[tactic(auto, using(keyspace::proofs::Applied::applied_insert, keyspace::proofs::Committed::committed_values))]
fn plan_settled<S: Store>(
    alloc: Global,
    store: &S,
    plan: &mut Plan,
    command: &DataCommand,
) -> Result<Reply, AllocError>
    requires { plan.old.last ≡ None }
    ensures { PlansSettled (S.contents store.now) plan.old plan.new command.now result }
{
    use DataCommand::*;
    match command {
        Ping => strings::ping(),
        Echo { message } => strings::echo(message),
        Get { key } => strings::get(store, &plan.values, key),
        Mget { keys } => strings::strings_at(alloc, store, &plan.values, keys.as_slice()),
        Strlen { key } => strings::len_at(store, &plan.values, key),
        Exists { keys } => strings::exists(store, &plan.values, keys.as_slice()),
        TypeOf { key } => strings::type_at(store, &plan.values, key),
        Set { .. }
        | Mset { .. }
        | Setnx { .. }
        | Getset { .. }
        | Getdel { .. }
        | Append { .. }
        | Incr { .. }
        | Decr { .. }
        | Incrby { .. }
        | Del { .. } => plan_on_string(alloc, store, plan, command),
        Hset { .. }
        | Hsetnx { .. }
        | Hget { .. }
        | Hmget { .. }
        | Hdel { .. }
        | Hexists { .. }
        | Hlen { .. }
        | Hstrlen { .. }
        | Hkeys { .. }
        | Hvals { .. }
        | Hgetall { .. }
        | Hincrby { .. } => plan_on_hash(alloc, store, plan, command),
    }
}

// A command that puts strings, or removes keys.
#[tactic(auto, using(keyspace::proofs::Applied::applied_insert, keyspace::proofs::Committed::committed_values))]
fn plan_on_string<S: Store>(
    alloc: Global,
    store: &S,
    plan: &mut Plan,
    command: &DataCommand,
) -> Result<Reply, AllocError>
    requires last { plan.old.last ≡ None }
    requires on_string { IsTrue (is_on_string command.now) }
    ensures { PlansSettled (S.contents store.now) plan.old plan.new command.now result }
{
    use DataCommand::*;
    match command {
        Set {
            key,
            value,
            condition,
        } => strings::set(store, &mut plan.values, key, value, *condition),
        Mset { pairs } => strings::set_each(alloc, plan, pairs),
        Setnx { key, value } => strings::setnx(store, &mut plan.values, key, value),
        Getset { key, value } => strings::getset(store, &mut plan.values, key, value),
        Getdel { key } => strings::getdel(store, &mut plan.values, key),
        Append { key, value } => strings::append(store, plan, key, value),
        Incr { key } => strings::add(alloc, store, &mut plan.values, key, 1),
        Decr { key } => strings::add(alloc, store, &mut plan.values, key, -1),
        Incrby { key, increment } => strings::incrby(
            alloc,
            store,
            &mut plan.values,
            key,
            increment,
        ),
        Del { keys } => strings::delete(store, &mut plan.values, keys.as_slice()),
        _ => unreachable!(),
    }
}

// A command on a hash.
#[tactic(auto, using(keyspace::proofs::Committed::committed_values))]
fn plan_on_hash<S: Store>(
    alloc: Global,
    store: &S,
    plan: &mut Plan,
    command: &DataCommand,
) -> Result<Reply, AllocError>
    requires last { plan.old.last ≡ None }
    requires on_hash { IsTrue (is_on_hash command.now) }
    ensures { PlansSettled (S.contents store.now) plan.old plan.new command.now result }
{
    use DataCommand::*;
    match command {
        Hset { key, pairs } => hashes::set(alloc, store, plan, key, pairs),
        Hsetnx { key, field, value } => hashes::set_new(alloc, store, plan, key, field, value),
        Hget { key, field } => hashes::get(alloc, store, &plan.values, key, field),
        Hmget { key, fields } => hashes::get_each(
            alloc,
            store,
            &plan.values,
            key,
            fields.as_slice(),
        ),
        Hdel { key, fields } => hashes::delete(alloc, store, plan, key, fields.as_slice()),
        Hexists { key, field } => hashes::exists(store, &plan.values, key, field),
        Hlen { key } => hashes::len(store, &plan.values, key),
        Hstrlen { key, field } => hashes::value_len(store, &plan.values, key, field),
        Hkeys { key } => hashes::fields(alloc, store, &plan.values, key),
        Hvals { key } => hashes::values(alloc, store, &plan.values, key),
        Hgetall { key } => hashes::pairs(alloc, store, &plan.values, key),
        Hincrby {
            key,
            field,
            increment,
        } => hashes::add(alloc, store, plan, key, field, increment),
        _ => unreachable!(),
    }
}
