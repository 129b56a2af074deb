//! Messages of other nodes, by what they speak of.
ghost use Rattle.std.specs.Prelude.{◌≡◌, Err, IfOk, OnErr, OnOk};
ghost use Rattle.bus.specs.declared.message.Body.TheVariants.{Slots};
ghost use Rattle.node_core.specs.Comes.{DraftsTaking, LacksOffset, LacksOffsetForSlots, Takes};
ghost use Rattle.node_parts.specs.Drafts.{HasNothing};
ghost use Rattle.node_parts.specs.Electing.{KeepsRest};
ghost use Rattle.step_fault.specs.declared.fault.StepFault.TheVariants.{Exhausted};

use crate::following::take_of_stream;
use crate::votes::take_of_election;
use bus::{Body, Message, SlotsBody};
use move_rows::take_of_slots;
use node_parts::{Draft, NodeParts};
use node_step::{Outputs, Recorder, Response, StepFault};
use repl_stream::{Replaces, Stream};
use replica_rows::add_written;
use slot_store::SlotParts;
use slot_table::NodeNo;
use step_making::{make, plain};

/// Takes a message for this node, of which the node took note before.
pub(crate) fn take<S: SlotParts + Replaces, T: Stream, K: Recorder>(
    node: &mut NodeParts<S, T>,
    ticket: u64,
    message: &Message,
) -> Result<(Outputs, K::Record), StepFault>
    ensures taken { Takes ticket node.old message.now.from message.now.body result node.new }
    ensures recorded { IfOk result (λ made. K.recorded made.1 ≡ made.0) }
    ensures err { OnErr result (KeepsRest node.old node.new) }
    ensures exhausted { result ≡ Err Exhausted → LacksOffset node.old message.now }
{
    let from = message.from;
    match &message.body {
        Body::Slots(body) => take_slots::<S, T, K>(node, ticket, from, body),
        Body::Stream(body) => take_of_stream::<S, T, K>(node, ticket, from, body),
        Body::Election(body) => take_of_election::<S, T, K>(node, ticket, from, body),
        // All that a report tells was noted before.
        Body::Report(_) => Ok(plain::<K>(ticket, Response::Nothing)),
    }
}

// Takes what that node says of slots.
#[tactic(auto, using(crate::proofs::MessageLemmas::slots_taken, node_parts::proofs::ChangeLemmas::draft_can_be_made))]
fn take_slots<S: SlotParts, T: Stream, K: Recorder>(
    node: &mut NodeParts<S, T>,
    ticket: u64,
    from: NodeNo,
    body: &SlotsBody,
) -> Result<(Outputs, K::Record), StepFault>
    ensures taken { Takes ticket node.old from (Slots body.now) result node.new }
    ensures recorded { IfOk result (λ made. K.recorded made.1 ≡ made.0) }
    ensures err { OnErr result (node.new ≡ node.old) }
    ensures exhausted { result ≡ Err Exhausted
        → LacksOffsetForSlots node.old from body.now }
{
    let mut draft = node.blank();
    draft_slots(node, from, body, &mut draft)?;
    Ok(make::<S, T, K>(node, ticket, &mut draft)?)
}

// Drafts what comes of it, with what it writes.
fn draft_slots<S: SlotParts, T: Stream>(
    node: &NodeParts<S, T>,
    from: NodeNo,
    body: &SlotsBody,
    draft: &mut Draft,
) -> Result<(), StepFault>
    requires { HasNothing node.now draft.old }
    ensures draft { OnOk result (DraftsTaking node.now from (Slots body.now) draft.new) }
    ensures exhausted { result ≡ Err Exhausted
        → LacksOffsetForSlots node.now from body.now }
{
    let bytes = take_of_slots(node, from, body, draft)?;
    add_written(node, bytes, draft)?;
    Ok(())
}
