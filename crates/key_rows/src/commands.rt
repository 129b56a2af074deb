//! Commands on keys: served, redirected or refused, by the decision on them.
ghost use Rattle.std.specs.Prelude.{◌≡◌, All, IfOk, IfSome, OnOk, Some};
ghost use Rattle.command_table.specs.Keys.{data_keys};
ghost use Rattle.key_slot.specs.Slot.{hash_slot};
ghost use Rattle.keyspace.specs.Commands.{exec};
ghost use Rattle.keyspace.specs.Keyspace.{Keyspace};
ghost use Rattle.keyspace.specs.Plan.{committed};
ghost use Rattle.node_parts.specs.Drafts.{Drafts, HasNothing, bodies_of};
ghost use Rattle.key_rows.specs.Places.{IsPlaceOf, drained_at};
ghost use Rattle.key_rows.specs.Serving.{served_change, Executes, answer_on, drained_by_executing, served_on};

use crate::decisions::{decision, refusal};
use bus::Body;
use command_table::DataCommand;
use connections::{Conn, Connection};
use key_commands::plan_command;
use key_slot::Slot;
use keyspace::Plan;
use node_parts::{Change, Draft, NodeParts, listed};
use node_step::Why;
use redirect::Decision;
use repl_stream::Stream;
use resp_values::Reply;
use slot_store::{Part, SlotParts};
use slot_table::NodeNo;
use std::alloc::AllocError;

/// Drafts the answer to a command on keys.
pub fn answer_on_keys<S: SlotParts, T: Stream>(
    node: &NodeParts<S, T>,
    conn: Conn,
    connection: Connection,
    command: &DataCommand,
    draft: &mut Draft,
) -> Result<(), AllocError>
    requires nothing { HasNothing node.now draft.old }
    requires plan { (keyspace : Keyspace) → committed keyspace draft.old.plan ≡ keyspace }
    ensures { OnOk result
        (Drafts node.now (answer_on node.now conn connection command.now) draft.new) }
{
    let (decision, slot) = decision(node, command, connection.asking)?;
    if decision.is_served() {
        return serve(node, conn, slot, command, decision, draft);
    }
    let reply = refusal(node, &decision, connection)?;
    node.tell(draft, conn, Why::Decided(decision), reply);
    Ok(())
}

// Executes the command, whose keys are in the slot if it has any.
fn serve<S: SlotParts, T: Stream>(
    node: &NodeParts<S, T>,
    conn: Conn,
    slot: Option<Slot>,
    command: &DataCommand,
    decision: Decision,
    draft: &mut Draft,
) -> Result<(), AllocError>
    requires place { IsPlaceOf slot (data_keys command.now) }
    requires nothing { HasNothing node.now draft.old }
    requires plan { (keyspace : Keyspace) → committed keyspace draft.old.plan ≡ keyspace }
    ensures { OnOk result
        (Drafts node.now (served_on node.now conn command.now decision) draft.new) }
{
    let place = place_of(&slot);
    let (reply, bodies) = execute(node, slot, place, command, &mut draft.plan)?;
    let why = Why::Decided(decision);
    let change = served_change(conn, place, command);
    node.draft_reply_sending(draft, why, reply, bodies, change);
    Ok(())
}

// The reply to the command, and the word that comes of its plan.
fn execute<S: SlotParts, T: Stream>(
    node: &NodeParts<S, T>,
    slot: Option<Slot>,
    place: Slot,
    command: &DataCommand,
    plan: &mut Plan,
) -> Result<(Reply, Vec<(NodeNo, Body)>), AllocError>
    requires nothing { (keyspace : Keyspace) → committed keyspace plan.old ≡ keyspace }
    requires slot { IsPlaceOf slot (data_keys command.now) }
    requires place { IfSome slot (λ slot. place ≡ slot) }
    ensures reply { IfOk result (λ made. made.0 ≡ (exec node.now.keyspace command.now).reply) }
    ensures after { OnOk result (Executes node.now.keyspace command.now place plan.new) }
    ensures sent { IfOk result
        (λ made. made.1.items ≡ drained_by_executing node.now command.now) }
{
    let reply = plan_in_slot(node, place, command, plan)?;
    let bodies = drained_by(node, slot, plan)?;
    Ok((reply, bodies))
}

// Plans a command whose keys are in the slot on what the node has there.
fn plan_in_slot<S: SlotParts, T: Stream>(
    node: &NodeParts<S, T>,
    slot: Slot,
    command: &DataCommand,
    plan: &mut Plan,
) -> Result<Reply, AllocError>
    requires nothing { (keyspace : Keyspace) → committed keyspace plan.old ≡ keyspace }
    requires slot { All (λ key. hash_slot key ≡ slot) (data_keys command.now) }
    ensures reply { IfOk result (λ reply. reply ≡ (exec node.now.keyspace command.now).reply) }
    ensures after { OnOk result (Executes node.now.keyspace command.now slot plan.new) }
{
    plan_command(node.alloc, node.store.part(slot), plan, command)
}

// The word that the slot of a command is drained, if its plan has that said. A slot at rest costs one look.
fn drained_by<S: SlotParts, T: Stream>(
    node: &NodeParts<S, T>,
    slot: Option<Slot>,
    plan: &Plan,
) -> Result<Vec<(NodeNo, Body)>, AllocError>
    ensures { IfOk result (λ bodies. bodies.items ≡ drained_at node.now slot plan.now) }
{
    let Some(slot) = slot else {
        return Ok(Vec::new(node.alloc));
    };
    if node.moves.get(slot).is_none() {
        return Ok(Vec::new(node.alloc));
    }
    listed(node.alloc, drained_at(node, slot, plan))
}

// The word that the slot is drained, where it leaves this node, and has a key that the plan leaves none of.
#[inline(never)]
fn drained_at<S: SlotParts, T: Stream>(
    node: &NodeParts<S, T>,
    slot: Slot,
    plan: &Plan,
) -> Option<(NodeNo, Body)>
    ensures { bodies_of result ≡ drained_at node.now (Some slot) plan.now }
{
    let word = node.drained(slot)?;
    if node.store.count_in_slot(slot) == 0 || node.store.part(slot).leaves_keys(plan) {
        return None;
    }
    Some(word)
}

// What a command changes that is served: nothing is committed of one that only reads.
fn served_change(conn: Conn, slot: Slot, command: &DataCommand) -> Change
    ensures { result ≡ served_change conn slot command.now }
{
    if command.is_write() {
        Change::Keys { conn, slot }
    } else {
        Change::Asks { conn }
    }
}

// The slot in which a command is executed whose keys are in the slot. One without keys executes alike in each.
fn place_of(slot: &Option<Slot>) -> Slot
    ensures { IfSome slot.now (λ slot. result ≡ slot) }
{
    match slot {
        Some(slot) => *slot,
        None => any_slot(),
    }
}

// A slot for a command without keys.
fn any_slot() -> Slot {
    let Some(slot) = Slot::new(0) else {
        unreachable!();
    };
    slot
}
