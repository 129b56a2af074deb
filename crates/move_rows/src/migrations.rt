//! MIGRATE: keys are copied to the node that their slot goes to.
ghost use Rattle.std.specs.Prelude.{◌≡◌, ◌++◌, [], IfOk, OnOk, Err, true};
ghost use Rattle.std.specs.List.{cons_option};
ghost use Rattle.std.specs.Option.{option_copied};
ghost use Rattle.bus.specs.declared.bodies.SlotsBody.TheVariants.{Copy};
ghost use Rattle.bus.specs.declared.message.Body.TheVariants.{Slots};
ghost use Rattle.move_rows.specs.Naming.{with_named};
ghost use Rattle.move_rows.specs.Copying.{LeavesFrozen, NoNumber, copy_ordered, copying, sending_for, sending_frozen, verdict_in};
ghost use Rattle.node_parts.specs.Drafts.{Drafts, HasNothing, bodies_of};
ghost use Rattle.step_fault.specs.declared.fault.StepFault.TheVariants.{Exhausted};
ghost use Rattle.node_step.specs.Copies.{copy_verdict_on, first_slot, outstanding, pair_with, pairs_at, those_there};
ghost use Rattle.redirect.specs.Decision.{has_other_slot};
ghost use Rattle.node_step.specs.Requests.{has_copy_number, using_up};

use crate::copies::is_among;
use bus::{Body, SlotsBody};
use byte_string::ByteString;
use command_table::ErrorLine;
use connections::{Conn, Wait};
use key_slot::{Slot, slot};
use keyspace::{Pair, Pairs, Store, Value};
use migrate::{CopyVerdict, copy_verdict};
use node_parts::{Change, Draft, NodeParts, listed};
use node_step::{StepFault, Why};
use repl_stream::Stream;
use resp_values::{Line, Reply};
use slot_state::{CopyId, Keys, Move};
use slot_store::SlotParts;
use slot_table::NodeNo;
use std::alloc::AllocError;

/// Copies the keys to the node at that address, and has the connection wait for the acknowledgement.
#[inline(never)]
pub fn migrate_keys<S: SlotParts, T: Stream>(
    node: &NodeParts<S, T>,
    conn: Conn,
    target: Option<NodeNo>,
    named: &[ByteString],
    ticks: u32,
    draft: &mut Draft,
) -> Result<(), StepFault>
    requires { HasNothing node.now draft.old }
    ensures draft { OnOk result
        (Drafts node.now (copy_ordered node.now conn named.now target ticks) draft.new) }
    ensures number { OnOk result
        (has_copy_number (copy_verdict_on node.now named.now target) ≡ true) }
    ensures exhausted { result ≡ Err Exhausted
        → NoNumber (copy_verdict_on node.now named.now target) }
{
    let slot = first_slot(named);
    if has_other_slot(slot, named) {
        let reply = ErrorLine::CrossSlot.reply();
        node.tell(draft, conn, Why::Copies(CopyVerdict::CrossSlot), reply);
        return Ok(());
    }
    let keys = Keys::new(those_there(node, named)?);
    migrate_those(node, conn, slot, target, keys, ticks, draft)
}

// Copies these keys of the slot, which are there.
#[tactic(auto, using(crate::proofs::SendingLemmas::copy_drafted, crate::proofs::SendingLemmas::copy_drafted_again, node_step::proofs::Outstanding::copied_leaves))]
fn migrate_those<S: SlotParts, T: Stream>(
    node: &NodeParts<S, T>,
    conn: Conn,
    slot: Slot,
    target: Option<NodeNo>,
    keys: Keys,
    ticks: u32,
    draft: &mut Draft,
) -> Result<(), StepFault>
    requires { HasNothing node.now draft.old }
    ensures draft { OnOk result
        (Drafts node.now (copying node.now conn slot target keys ticks) draft.new) }
    ensures number { OnOk result
        (has_copy_number (verdict_in node.now slot target keys) ≡ true) }
    ensures exhausted { result ≡ Err Exhausted
        → NoNumber (verdict_in node.now slot target keys) }
{
    let verdict = copy_verdict(node.moves.get(slot), target, keys.as_slice());
    match verdict {
        CopyVerdict::CrossSlot => {
            let reply = ErrorLine::CrossSlot.reply();
            node.tell(draft, conn, Why::Copies(verdict), reply);
            Ok(())
        }
        CopyVerdict::WrongTarget => {
            let reply = ErrorLine::WrongTarget.reply();
            node.tell(draft, conn, Why::Copies(verdict), reply);
            Ok(())
        }
        CopyVerdict::NoKey => {
            let reply = Reply::Simple(Line::from_static(b"NOKEY"));
            node.tell(draft, conn, Why::Copies(verdict), reply);
            Ok(())
        }
        CopyVerdict::CopyOutstanding => {
            let reply = ErrorLine::CopyOutstanding.reply();
            node.tell(draft, conn, Why::Copies(verdict), reply);
            Ok(())
        }
        CopyVerdict::Exhausted => Err(StepFault::Exhausted),
        CopyVerdict::SendAgain { number, copy, .. } => {
            let id = CopyId { slot, number, copy };
            let wait = Wait { id, ticks };
            Ok(send_again(node, conn, wait, draft)?)
        }
        CopyVerdict::Copies { to, number, copy } => {
            let id = CopyId { slot, number, copy };
            let wait = Wait { id, ticks };
            Ok(send_copy(node, conn, to, keys, wait, draft)?)
        }
    }
}

// The slot of the first key.
fn first_slot(keys: &[ByteString]) -> Slot
    ensures { result ≡ first_slot keys.now }
{
    match keys {
        [] => Slot::new(0).unwrap(),
        [key, ..] => slot(key.as_slice()),
    }
}

fn has_other_slot(place: Slot, keys: &[ByteString]) -> bool
    ensures { result ≡ has_other_slot place keys.now }
{
    keys.iter().any(|key| slot(key.as_slice()) != place)
}

// The keys that are there, each once, in the order in which they are named first.
fn those_there<S: SlotParts, T: Stream>(
    node: &NodeParts<S, T>,
    named: &[ByteString],
) -> Result<Vec<ByteString>, AllocError>
    ensures { IfOk result (λ keys. keys.items ≡ those_there node.now.keyspace named.now) }
{
    let mut keys = Vec::with_capacity(node.alloc, named.len())?;
    for key in named {
        let is_there = node.store.get(key).is_some();
        add_named(&mut keys, key, is_there)?;
    }
    Ok(keys)
}

// Puts the key behind the others, if it is there and none of them.
fn add_named(keys: &mut Vec<ByteString>, key: &ByteString, is_there: bool) -> Result<(), AllocError>
    ensures { OnOk result (keys.new.items ≡ with_named keys.old.items key.now is_there) }
{
    if is_there && !is_among(keys.as_slice(), key) {
        keys.push(key.clone()?)?;
    }
    Ok(())
}

// Sends the outstanding copy again, and the connection waits for it, too.
fn send_again<S: SlotParts, T: Stream>(
    node: &NodeParts<S, T>,
    conn: Conn,
    wait: Wait,
    draft: &mut Draft,
) -> Result<(), AllocError>
    requires { HasNothing node.now draft.old }
    ensures { OnOk result
        (Drafts node.now (sending_for (using_up node.now conn) conn wait) draft.new) }
{
    let id = wait.id;
    let body = outstanding(node, id.slot, node.moves.get(id.slot))?;
    let bodies = listed(node.alloc, body)?;
    node.draft_parked(draft, bodies, Change::Parks { conn, wait });
    Ok(())
}

// Sends the copy that the connection then waits for. The keys are frozen from then on.
fn send_copy<S: SlotParts, T: Stream>(
    node: &NodeParts<S, T>,
    conn: Conn,
    to: NodeNo,
    keys: Keys,
    wait: Wait,
    draft: &mut Draft,
) -> Result<(), AllocError>
    requires leaves { LeavesFrozen node.now.moves to wait keys }
    requires nothing { HasNothing node.now draft.old }
    ensures { OnOk result (Drafts node.now (sending_frozen node.now conn wait keys) draft.new) }
{
    let body = copy_of(node, to, wait.id, keys.as_slice())?;
    let bodies = listed(node.alloc, Some(body))?;
    node.draft_parked(draft, bodies, Change::Freezes { conn, keys, wait });
    Ok(())
}

// The copy that is not acknowledged, of a slot with that move.
fn outstanding<S: SlotParts, T: Stream>(
    node: &NodeParts<S, T>,
    slot: Slot,
    running: Option<&Move>,
) -> Result<Option<(NodeNo, Body)>, AllocError>
    ensures { IfOk result (λ body.
        bodies_of body ≡ outstanding node.now.keyspace slot (option_copied running.entry)) }
{
    match running {
        Some(
            Move::Leaves {
                to,
                number,
                copies,
                frozen: Some(keys),
            },
        ) => {
            let id = CopyId {
                slot,
                number: *number,
                copy: *copies,
            };
            Ok(Some(copy_of(node, *to, id, keys.as_slice())?))
        }
        _ => Ok(None),
    }
}

/// The copy of the keys with their values, for the node that their slot leaves to.
pub(crate) fn copy_of<S: SlotParts, T: Stream>(
    node: &NodeParts<S, T>,
    to: NodeNo,
    id: CopyId,
    keys: &[ByteString],
) -> Result<(NodeNo, Body), AllocError>
    ensures { IfOk result (λ body. body ≡ (to, Slots (Copy id (pairs_at node.now.keyspace keys.now)))) }
{
    let pairs = Pairs::new(node.alloc, pairs_at(node, keys)?)?;
    Ok((to, Body::Slots(SlotsBody::Copy { id, pairs })))
}

// The keys that are there, with their values. Long values share their bytes with the store.
fn pairs_at<S: SlotParts, T: Stream>(
    node: &NodeParts<S, T>,
    keys: &[ByteString],
) -> Result<Vec<Pair>, AllocError>
    ensures { IfOk result (λ pairs. pairs.items ≡ pairs_at node.now.keyspace keys.now) }
{
    let mut pairs = Vec::with_capacity(node.alloc, keys.len())?;
    for key in keys {
        add_pair(&mut pairs, key, node.store.get(key))?;
    }
    Ok(pairs)
}

// Puts the key with its value behind the others, if it has one.
fn add_pair(
    pairs: &mut Vec<Pair>,
    key: &ByteString,
    value: Option<&Value>,
) -> Result<(), AllocError>
    ensures { OnOk result (pairs.new.items
        ≡ pairs.old.items ++ cons_option (pair_with key.now (option_copied value.entry)) []) }
{
    if let Some(value) = value {
        pairs.push(Pair::new(key.clone()?, value.clone()?))?;
    }
    Ok(())
}
