//! What a node reports about the cluster and about itself.
ghost use Rattle.std.specs.Prelude.{◌≡◌, ◌∷◌, ◌<◌, ◌^◌, [], pos, IfOk, IsTrue, map, option_copied, take};
ghost use Rattle.report_rows.specs.Questions.{IsReport, is_question};
ghost use Rattle.resp_values.specs.Reply.{array_of};
ghost use Rattle.slot_state.specs.State.{seen};
ghost use Rattle.node_step.specs.Reports.{state_drained, state_number, state_word, state_node, count_reply, id_of, id_reply, keys_reply, master_reply, owner_reply, run_reply, slots_reply, state_reply};

use byte_string::ByteString;
use cluster_config::{Config, NodeConfig};
use command_table::ClusterCommand;
use key_slot::{Slot, slot};
use node_parts::NodeParts;
use repl_stream::Stream;
use resp_values::{Array, Reply};
use slot_state::{Move, SlotState};
use slot_store::SlotParts;
use slot_table::{NodeNo, Run};
use std::alloc::{AllocError, Global};

/// What the node says to a question.
pub fn report<S: SlotParts, T: Stream>(
    node: &NodeParts<S, T>,
    question: &ClusterCommand,
) -> Result<Reply, AllocError>
    requires { IsTrue (is_question question.now) }
    ensures { IfOk result (λ reply. IsReport node.now question.now reply) }
{
    match question {
        ClusterCommand::KeySlot { key } => {
            let slot = slot(key.as_slice());
            Ok(Reply::Integer(i64::from(slot.get())))
        }
        ClusterCommand::MyId => id(node, node.number),
        ClusterCommand::Slots => {
            let runs = node.table.runs(node.alloc)?;
            slots_reply(node.alloc, &node.config, runs.as_slice())
        }
        ClusterCommand::CountKeysInSlot { slot } => Ok(count(node, *slot)),
        ClusterCommand::GetKeysInSlot { slot, count } => keys(node, *slot, *count),
        ClusterCommand::SlotState { slot } => slot_state(node, *slot),
        _ => unreachable!(),
    }
}

/// The id of a node.
fn id<S: SlotParts, T: Stream>(node: &NodeParts<S, T>, number: NodeNo) -> Result<Reply, AllocError>
    ensures { IfOk result (λ reply. reply ≡ id_of node.now.config number) }
{
    id_reply(node.alloc, node.config.node(number))
}

/// How many keys of the slot are here.
fn count<S: SlotParts, T: Stream>(node: &NodeParts<S, T>, slot: Slot) -> Reply
    ensures { result ≡ count_reply node.now slot }
{
    Reply::Integer(node.store.count_in_slot(slot) as i64)
}

/// The first keys of the slot that are here.
fn keys<S: SlotParts, T: Stream>(
    node: &NodeParts<S, T>,
    slot: Slot,
    count: u64,
) -> Result<Reply, AllocError>
    ensures { IfOk result (λ reply. reply ≡ keys_reply node.now slot count) }
{
    let found = node.store.keys_in_slot(node.alloc, slot, count as usize)?;
    let mut replies = Vec::with_capacity(node.alloc, found.len())?;
    for key in found {
        replies.push(Reply::Bulk(key))?;
    }
    array(node.alloc, replies)
}

/// What the node does with the slot.
fn slot_state<S: SlotParts, T: Stream>(
    node: &NodeParts<S, T>,
    slot: Slot,
) -> Result<Reply, AllocError>
    ensures { IfOk result (λ reply. reply ≡ state_reply node.now slot) }
{
    let owner = node.table.owner(slot);
    let state = node.moves.state(slot, owner, node.number);
    let word = Reply::Bulk(state_word(&state));
    let about = id_about(node, &state, slot)?;
    let number = Reply::Integer(state_number(&state) as i64);
    let last = Reply::Integer(node.moves.last_move(slot).get() as i64);
    let count = count(node, slot);
    let is_drained = Reply::Integer(i64::from(is_drained(&state)));
    array(
        node.alloc,
        vec![in node.alloc; word, about, number, last, count, is_drained]?,
    )
}

// The word for what a node does with a slot.
fn state_word(state: &SlotState<&Move>) -> ByteString
    ensures { result ≡ state_word (seen state.now) }
{
    match state {
        SlotState::Owned => ByteString::inline(b"owned"),
        SlotState::Foreign => ByteString::inline(b"foreign"),
        SlotState::Moving(Move::Leaves { .. }) => ByteString::inline(b"migrating"),
        SlotState::Moving(Move::Comes { .. }) => ByteString::inline(b"importing"),
    }
}

// The id of the node that a slot's state is about, if there is one: the owner, or the other node of a move.
fn id_about<S: SlotParts, T: Stream>(
    node: &NodeParts<S, T>,
    state: &SlotState<&Move>,
    slot: Slot,
) -> Result<Reply, AllocError>
    ensures { IfOk result (λ reply. reply ≡ state_node node.now slot (seen state.now)) }
{
    match state {
        SlotState::Owned => id(node, node.number),
        SlotState::Foreign => id_of_owner(node, node.table.owner(slot)),
        SlotState::Moving(Move::Leaves { to, .. }) => id(node, *to),
        SlotState::Moving(Move::Comes { from, .. }) => id(node, *from),
    }
}

fn id_of_owner<S: SlotParts, T: Stream>(
    node: &NodeParts<S, T>,
    owner: Option<NodeNo>,
) -> Result<Reply, AllocError>
    ensures { IfOk result (λ reply. reply ≡ owner_reply node.now.config owner) }
{
    match owner {
        Some(number) => id(node, number),
        None => Ok(Reply::Null),
    }
}

// The number of the move under way, or 0.
fn state_number(state: &SlotState<&Move>) -> u64
    ensures number { result ≡ state_number (seen state.now) }
    ensures below { result < 2 ^ 63 }
{
    match state {
        SlotState::Owned | SlotState::Foreign => 0,
        SlotState::Moving(Move::Leaves { number, .. } | Move::Comes { number, .. }) => number.get(),
    }
}

// Whether the slot comes to the node, and no key of it is left elsewhere.
fn is_drained(state: &SlotState<&Move>) -> bool
    ensures { result ≡ state_drained (seen state.now) }
{
    match state {
        SlotState::Moving(Move::Comes { drained, .. }) => drained.is_some(),
        _ => false,
    }
}

// The id of a node.
fn id_reply(alloc: Global, node: Option<&NodeConfig>) -> Result<Reply, AllocError>
    ensures { IfOk result (λ reply. reply ≡ id_reply (option_copied node.entry)) }
{
    match node {
        Some(node) => bulk(alloc, node.id.bytes().as_slice()),
        None => Ok(Reply::Null),
    }
}

// A bulk string with a copy of these bytes.
fn bulk(alloc: Global, bytes: &[u8]) -> Result<Reply, AllocError>
    ensures { IfOk result (λ reply. reply ≡ Reply.Bulk bytes.now) }
{
    Ok(Reply::Bulk(ByteString::copy_from_slice(alloc, bytes)?))
}

/// Which slots each master has, run by run.
fn slots_reply(alloc: Global, config: &Config, runs: &[Run<NodeNo>]) -> Result<Reply, AllocError>
    ensures { IfOk result (λ reply. reply ≡ slots_reply config.now runs.now) }
{
    let mut replies = Vec::with_capacity(alloc, runs.len())?;
    for run in runs {
        replies.push(run_reply(alloc, config, *run)?)?;
    }
    array(alloc, replies)
}

// A run of slots with its master.
fn run_reply(alloc: Global, config: &Config, run: Run<NodeNo>) -> Result<Reply, AllocError>
    ensures { IfOk result (λ reply. reply ≡ run_reply config.now run) }
{
    let first = Reply::Integer(i64::from(run.slots.first.get()));
    let last = Reply::Integer(i64::from(run.slots.last.get()));
    let master = master_reply(alloc, config.node(run.value))?;
    array(alloc, vec![in alloc; first, last, master]?)
}

// Where a master is reached, and its id.
fn master_reply(alloc: Global, node: Option<&NodeConfig>) -> Result<Reply, AllocError>
    ensures { IfOk result (λ reply. reply ≡ master_reply (option_copied node.entry)) }
{
    let Some(node) = node else {
        return Ok(Reply::Null);
    };
    let host = bulk(alloc, node.host.bytes().as_slice())?;
    let port = Reply::Integer(i64::from(node.port));
    let id = bulk(alloc, node.id.bytes().as_slice())?;
    array(alloc, vec![in alloc; host, port, id]?)
}

fn array(alloc: Global, replies: Vec<Reply>) -> Result<Reply, AllocError>
    ensures { IfOk result (λ reply. reply ≡ Reply.Array (array_of replies.items)) }
{
    Ok(Reply::Array(Array::of(alloc, replies)?))
}
