//! What a node decides on a command, and the replies to those that it doesn't serve.
ghost use Rattle.std.specs.Prelude.{◌≡◌, IfOk, Some, is_some, map, slice_get};
ghost use Rattle.std.specs.FinMap as fin_map;
ghost use Rattle.command_table.specs.Keys.{data_keys};
ghost use Rattle.key_slot.specs.Slot.{hash_slot};
ghost use Rattle.key_rows.specs.Places.{IsOneSlot, IsPlaceFor};
ghost use Rattle.key_rows.specs.Refusals.{refusal};
ghost use Rattle.key_rows.specs.Serving.{decision_on_key};
ghost use Rattle.node_step.specs.Commands.{ask_reply, decision_on, moved_reply, named, reason_line};
ghost use Rattle.redirect.specs.Asked.{bytes_of};
ghost use Rattle.redirect.specs.Meaning.{IsSlotOf};
ghost use Rattle.slot_state.specs.Moves.{move_of};

use byte_string::ByteString;
use command_table::{DataCommand, ErrorLine};
use connections::Connection;
use key_slot::{Slot, slot};
use keyspace::Store;
use node_parts::NodeParts;
use redirect::{Asking, Decision, Reason, decide_at_rest, decide_in_slot};
use redirection::{ask_reply, moved_reply};
use repl_stream::Stream;
use resp_values::Reply;
use slot_state::{Move, MoveNo};
use slot_store::SlotParts;
use slot_table::NodeNo;
use std::alloc::{AllocError, Global};

/// The decision on a command, and the slot of its keys if it has any. The slot of a key is computed once, unless
/// several keys are in a slot that moves.
pub(crate) fn decision<S: SlotParts, T: Stream>(
    node: &NodeParts<S, T>,
    command: &DataCommand,
    asking: Asking,
) -> Result<(Decision, Option<Slot>), AllocError>
    ensures decision { IfOk result (λ found. found.0 ≡ decision_on node.now command.now asking) }
    ensures place { IfOk result (λ found. IsPlaceFor command.now found.0 found.1) }
{
    // A command with one key needs no list of keys.
    if let Some(key) = command.only_key() {
        let slot = slot(key.as_slice());
        return Ok((decision_on_key(node, slot, key, asking), Some(slot)));
    }
    let keys = command.keys(node.alloc)?;
    let Some((first, others)) = keys.as_slice().split_first() else {
        return Ok((Decision::Serve, None));
    };
    let slot = slot(first);
    let decision = match node.moves.get(slot) {
        None => decide_at_rest(node.standing(slot), slot, others),
        Some(running) => decision_in_move(node, running, slot, command, keys.as_slice(), asking)?,
    };
    Ok((decision, Some(slot)))
}

// The decision on a command with one key, which is in the slot.
fn decision_on_key<S: SlotParts, T: Stream>(
    node: &NodeParts<S, T>,
    slot: Slot,
    key: &ByteString,
    asking: Asking,
) -> Decision
    requires { hash_slot key.now ≡ slot }
    ensures { result ≡ decision_on_key node.now key.now asking }
{
    let at = node.standing(slot);
    let Some(running) = node.moves.get(slot) else {
        return decide_at_rest(at, slot, &[]);
    };
    let is_there = node.store.get(key).is_some();
    let keys = [key.as_slice()];
    decide_in_slot(at, Some(running), slot, &keys, &[is_there], asking)
}

// The decision on a command with several keys, the first of which is in a slot of which that move is under way.
fn decision_in_move<S: SlotParts, T: Stream>(
    node: &NodeParts<S, T>,
    running: &Move,
    slot: Slot,
    command: &DataCommand,
    keys: &[&[u8]],
    asking: Asking,
) -> Result<Decision, AllocError>
    requires keys { bytes_of keys.now ≡ data_keys command.now }
    requires slot { IsSlotOf slot (data_keys command.now) }
    requires under_way { Some running.now ≡ move_of node.now.moves slot }
    ensures decision { IfOk result (λ made. made ≡ decision_on node.now command.now asking) }
    ensures one_slot { IfOk result (λ made. IsOneSlot command.now slot made) }
{
    let words = command.key_words(node.alloc)?;
    let there = are_in(node.alloc, &node.store, words.as_slice())?;
    let at = node.standing(slot);
    Ok(decide_in_slot(at, Some(running), slot, keys, there.as_slice(), asking))
}

/// The reply to a command that isn't served. An ASK line names the move where the connection wants to know it.
#[inline(never)]
pub(crate) fn refusal<S: SlotParts, T: Stream>(
    node: &NodeParts<S, T>,
    decision: &Decision,
    connection: Connection,
) -> Result<Reply, AllocError>
    ensures { IfOk result
        (λ reply. reply ≡ refusal node.now.config connection.numbered decision.now) }
{
    match decision {
        Decision::Serve | Decision::ServeImport { .. } => Ok(Reply::Null),
        Decision::CrossSlot => Ok(ErrorLine::CrossSlot.reply()),
        Decision::Down => Ok(ErrorLine::SlotDown.reply()),
        Decision::TryAgain(reason) => Ok(reason_line(*reason)),
        Decision::Ask { slot, to, number } => ask(node, *slot, *to, named(connection, *number)),
        Decision::Moved { slot, to } => moved(node, *slot, *to),
    }
}

// The error that names the owner of the slot.
fn moved<S: SlotParts, T: Stream>(
    node: &NodeParts<S, T>,
    slot: Slot,
    to: NodeNo,
) -> Result<Reply, AllocError>
    ensures { IfOk result (λ reply. reply ≡ moved_reply slot (slice_get node.now.config.nodes to)) }
{
    let Some(to) = node.config.node(to) else {
        return Ok(ErrorLine::SlotDown.reply());
    };
    moved_reply(node.alloc, slot, &to.host, to.port)
}

// The error that names the node that the slot goes to.
fn ask<S: SlotParts, T: Stream>(
    node: &NodeParts<S, T>,
    slot: Slot,
    to: NodeNo,
    number: Option<MoveNo>,
) -> Result<Reply, AllocError>
    ensures { IfOk result
        (λ reply. reply ≡ ask_reply slot (slice_get node.now.config.nodes to) number) }
{
    let Some(to) = node.config.node(to) else {
        return Ok(ErrorLine::SlotDown.reply());
    };
    ask_reply(node.alloc, slot, &to.host, to.port, number)
}

// Whether the store has each of the keys.
fn are_in<S: Store>(alloc: Global, store: &S, keys: &[&ByteString]) -> Result<Vec<bool>, AllocError>
    ensures { IfOk result (λ there.
        there.items ≡ map (λ key. is_some (fin_map.get (S.contents store.now) key.now)) keys.now) }
{
    let mut there = Vec::with_capacity(alloc, keys.len())?;
    for key in keys {
        there.push(store.get(key).is_some())?;
    }
    Ok(there)
}

// The number of the move, where the connection wants to know it.
fn named(connection: Connection, number: MoveNo) -> Option<MoveNo>
    ensures { result ≡ named connection.numbered number }
{
    connection.numbered.then_some(number)
}

// The error that tells why to try again.
fn reason_line(reason: Reason) -> Reply
    ensures { result ≡ reason_line reason }
{
    match reason {
        Reason::Frozen => ErrorLine::KeyFrozen.reply(),
        Reason::SomeAreMissing => ErrorLine::SomeKeysMissing.reply(),
        Reason::HandingOver => ErrorLine::HandingOver.reply(),
    }
}
