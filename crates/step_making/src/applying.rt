//! How a draft is made: its change, and behind the stream what it writes.
ghost use Rattle.std.specs.Prelude.{◌≡◌, ◌+◌, ◌<◌, ◌≤◌, ◌^◌, true, length, OnOk, OnErr};
ghost use Rattle.bus.specs.Stream.{received};
ghost use Rattle.node_parts.specs.Becomes.{CanBeMade};
ghost use Rattle.node_parts.specs.Drafts.{MayCount};
ghost use Rattle.node_parts.specs.Making.{CanMake, GoesOn, IsApplied, IsMade};
ghost use Rattle.node_parts.specs.Succession.{succeeded_by};

use crate::beginning::begin;
use crate::finishing::finish;
use keyspace::Plan;
use node_parts::{Change, Draft, NodeParts, Succession};
use repl_stream::{NodeStream, Stream, Written};
use slot_store::SlotParts;
use std::alloc::AllocError;

/// Makes the change of a draft, puts what it writes behind the stream, sets the epoch, and promotes the node, if the draft says so.
#[inline(always)]
pub(crate) fn apply<S: SlotParts, T: Stream>(
    node: &mut NodeParts<S, T>,
    draft: &mut Draft,
) -> Result<(), AllocError>
    requires { CanMake node.old draft.old }
    ensures ok { OnOk result (IsApplied node.old draft.old node.new) }
    ensures err { OnErr result (node.new ≡ node.old) }
{
    change_and_write(node, &draft.written, &mut draft.plan, &mut draft.change)?;
    node.election.current_epoch = draft.epoch;
    succeed_by(node, draft.succession.take());
    Ok(())
}

// Promotes the node, if there is a succession.
fn succeed_by<S: SlotParts, T: Stream>(node: &mut NodeParts<S, T>, succession: Option<Succession>)
    ensures { node.new ≡ succeeded_by succession node.old }
{
    if let Some(succession) = succession {
        node.succeed(succession);
    }
}

// Makes a change, and puts what is written behind the stream. All memory that this takes is there before anything can't be undone.
#[tactic(auto, using(crate::proofs::HalfLemmas::both_halves))]
fn change_and_write<S: SlotParts, T: Stream>(
    node: &mut NodeParts<S, T>,
    written: &Written,
    plan: &mut Plan,
    change: &mut Change,
) -> Result<(), AllocError>
    requires change { CanBeMade node.old plan.old change.old }
    requires counted { MayCount node.old written.now }
    ensures ok { OnOk result (IsMade node.old plan.old change.old written.now.bytes node.new) }
    ensures err { OnErr result (node.new ≡ node.old) }
{
    make_room(&mut node.stream, written.len())?;
    begin(node.alloc, &mut node.store, &mut node.moves, plan, &*change)?;
    write(&mut node.stream, written);
    finish(node, change);
    Ok(())
}

// Makes room for so many bytes behind the stream. That they have offsets was seen before.
fn make_room<T: Stream>(stream: &mut NodeStream<T>, count: usize) -> Result<(), AllocError>
    ensures stream { stream.new.stream ≡ stream.old.stream }
    ensures keeps { stream.new.keeps ≡ stream.old.keeps }
    ensures room { OnOk result (count ≤ stream.new.room) }
    ensures offset { OnOk result (received stream.new.stream + count < 2 ^ 64) }
{
    match stream.reserve(count) {
        Ok(()) => Ok(()),
        Err(_fault) => Err(AllocError),
    }
}

// Puts what is written behind the stream, if it is anything.
#[tactic(auto, using(crate::proofs::HalfLemmas::nothing_written, crate::proofs::HalfLemmas::some_written))]
fn write<T: Stream>(stream: &mut NodeStream<T>, written: &Written)
    requires room { length written.now.bytes ≤ stream.old.room }
    requires offset { received stream.old.stream + length written.now.bytes < 2 ^ 64 }
    requires counted { written.now.is_counted ≡ true → stream.old.keeps ≡ 0 }
    ensures goes_on { GoesOn stream.old.keeps written.now.bytes stream.old.stream stream.new.stream }
    ensures keeps { stream.new.keeps ≡ stream.old.keeps }
{
    if !written.is_empty() {
        stream.append(written);
    }
}
