//! What another node says of an election or a handover.
ghost use Rattle.std.specs.Prelude.{◌≡◌, ◌≢◌, Err, IfOk, OnErr, Some};
ghost use Rattle.bus.specs.declared.bodies.ElectionBody.TheVariants.{Candidacy as Asks, Grant, Pause, Paused};
ghost use Rattle.bus.specs.declared.message.Body.TheVariants.{Election};
ghost use Rattle.node_core.specs.Comes.{ComesTo, Takes, promotion_elected, promotion_planned};
ghost use Rattle.node_parts.specs.Electing.{KeepsRest};
ghost use Rattle.node_step.specs.Promotion.{promotion};
ghost use Rattle.step_fault.specs.declared.fault.StepFault.TheVariants.{Exhausted};

use bus::{Candidacy, ElectionBody, Handing, StreamId};
use election::VoteRequest;
use election_rows::{promote, promote_by_plan, write_vote};
use handover_rows::{hand_over, note_handing};
use node_parts::NodeParts;
use node_step::{Outputs, Recorder, Response, StepFault};
use repl_stream::Stream;
use slot_store::SlotParts;
use slot_table::{Epoch, NodeNo};
use step_making::{make, plain};

/// Takes what that node says.
pub(crate) fn take_of_election<S: SlotParts, T: Stream, K: Recorder>(
    node: &mut NodeParts<S, T>,
    ticket: u64,
    from: NodeNo,
    body: &ElectionBody,
) -> Result<(Outputs, K::Record), StepFault>
    ensures taken { Takes ticket node.old from (Election body.now) result node.new }
    ensures recorded { IfOk result (λ made. K.recorded made.1 ≡ made.0) }
    ensures err { OnErr result (KeepsRest node.old node.new) }
    ensures exhausted { result ≢ Err Exhausted }
{
    match body {
        ElectionBody::Candidacy(request) => ask_for_vote::<S, T, K>(node, ticket, from, request),
        ElectionBody::Grant(epoch) => count_vote::<S, T, K>(node, ticket, from, *epoch),
        ElectionBody::Pause(stream) => pause::<S, T, K>(node, ticket, from, *stream),
        ElectionBody::Paused(handing) => note::<S, T, K>(node, ticket, from, handing),
    }
}

// A replica wants this node, its master, to hand over.
#[tactic(auto, using(crate::proofs::MessageLemmas::pause_drafted, node_parts::proofs::ChangeLemmas::draft_can_be_made, node_parts::proofs::ChangeLemmas::made_comes))]
fn pause<S: SlotParts, T: Stream, K: Recorder>(
    node: &mut NodeParts<S, T>,
    ticket: u64,
    from: NodeNo,
    stream: StreamId,
) -> Result<(Outputs, K::Record), StepFault>
    ensures taken { Takes ticket node.old from (Election (Pause stream)) result node.new }
    ensures recorded { IfOk result (λ made. K.recorded made.1 ≡ made.0) }
    ensures err { OnErr result (node.new ≡ node.old) }
    ensures exhausted { result ≢ Err Exhausted }
{
    let mut draft = node.blank();
    hand_over(node, from, stream, &mut draft)?;
    Ok(make::<S, T, K>(node, ticket, &mut draft)?)
}

// The own master tells what it hands over.
#[tactic(auto, using(crate::proofs::MessageLemmas::paused_drafted, node_parts::proofs::ChangeLemmas::draft_can_be_made, node_parts::proofs::ChangeLemmas::made_comes))]
fn note<S: SlotParts, T: Stream, K: Recorder>(
    node: &mut NodeParts<S, T>,
    ticket: u64,
    from: NodeNo,
    handing: &Handing,
) -> Result<(Outputs, K::Record), StepFault>
    ensures taken { Takes ticket node.old from (Election (Paused handing.now)) result node.new }
    ensures recorded { IfOk result (λ made. K.recorded made.1 ≡ made.0) }
    ensures err { OnErr result (node.new ≡ node.old) }
    ensures exhausted { result ≢ Err Exhausted }
{
    let mut draft = node.blank();
    note_handing(node, handing, &mut draft)?;
    Ok(make::<S, T, K>(node, ticket, &mut draft)?)
}

// Takes the request of a node for this one's vote.
#[tactic(auto, using(crate::proofs::VoteLemmas::vote_taken, crate::proofs::VoteLemmas::vote_drafted, node_parts::proofs::ChangeLemmas::draft_can_be_made))]
fn ask_for_vote<S: SlotParts, T: Stream, K: Recorder>(
    node: &mut NodeParts<S, T>,
    ticket: u64,
    from: NodeNo,
    request: &Candidacy,
) -> Result<(Outputs, K::Record), StepFault>
    ensures taken { Takes ticket node.old from (Election (Asks request.now)) result node.new }
    ensures recorded { IfOk result (λ made. K.recorded made.1 ≡ made.0) }
    ensures err { OnErr result (KeepsRest node.old node.new) }
    ensures exhausted { result ≢ Err Exhausted }
{
    let request = VoteRequest {
        candidate: from,
        epoch: request.epoch,
        master: request.master,
        planned: request.planned,
    };
    let granted = node.vote(request);
    let mut draft = node.blank();
    write_vote(node, request, granted, &mut draft)?;
    Ok(make::<S, T, K>(node, ticket, &mut draft)?)
}

// Counts the vote of a node for this one, which may elect it.
fn count_vote<S: SlotParts, T: Stream, K: Recorder>(
    node: &mut NodeParts<S, T>,
    ticket: u64,
    from: NodeNo,
    epoch: Epoch,
) -> Result<(Outputs, K::Record), StepFault>
    ensures taken { Takes ticket node.old from (Election (Grant epoch)) result node.new }
    ensures recorded { IfOk result (λ made. K.recorded made.1 ≡ made.0) }
    ensures err { OnErr result (KeepsRest node.old node.new) }
    ensures exhausted { result ≢ Err Exhausted }
{
    let Some(elected) = node.count_vote(from, epoch) else {
        return Ok(plain::<K>(ticket, Response::Nothing));
    };
    promoted::<S, T, K>(node, ticket, elected.epoch)
}

// The node is elected, and takes the place of its master, if it has one.
fn promoted<S: SlotParts, T: Stream, K: Recorder>(
    node: &mut NodeParts<S, T>,
    ticket: u64,
    epoch: Epoch,
) -> Result<(Outputs, K::Record), StepFault>
    ensures promoted { ComesTo ticket (promotion_elected node.old epoch) result node.new }
    ensures recorded { IfOk result (λ made. K.recorded made.1 ≡ made.0) }
    ensures err { OnErr result (node.new ≡ node.old) }
    ensures exhausted { result ≢ Err Exhausted }
{
    let Some(master) = node.own_master() else {
        return Ok(plain::<K>(ticket, Response::Nothing));
    };
    if node.is_election_planned() {
        promoted_by_plan::<S, T, K>(node, ticket, master, epoch)
    } else {
        promoted_in_place::<S, T, K>(node, ticket, master, epoch)
    }
}

// The master is held failed.
#[tactic(auto, using(crate::proofs::VoteLemmas::promotion_made, node_parts::proofs::ChangeLemmas::promotion_can_be_made))]
fn promoted_in_place<S: SlotParts, T: Stream, K: Recorder>(
    node: &mut NodeParts<S, T>,
    ticket: u64,
    master: NodeNo,
    epoch: Epoch,
) -> Result<(Outputs, K::Record), StepFault>
    ensures promoted { ComesTo ticket (promotion node.old epoch (Some master)) result node.new }
    ensures recorded { IfOk result (λ made. K.recorded made.1 ≡ made.0) }
    ensures err { OnErr result (node.new ≡ node.old) }
    ensures exhausted { result ≢ Err Exhausted }
{
    let mut draft = node.blank();
    promote(node, master, epoch, &mut draft)?;
    Ok(make::<S, T, K>(node, ticket, &mut draft)?)
}

// The master hands over. A node that hasn't all of its stream, or has noted nothing, stays a replica.
#[tactic(auto, using(crate::proofs::VoteLemmas::promotion_made, node_parts::proofs::ChangeLemmas::promotion_can_be_made))]
fn promoted_by_plan<S: SlotParts, T: Stream, K: Recorder>(
    node: &mut NodeParts<S, T>,
    ticket: u64,
    master: NodeNo,
    epoch: Epoch,
) -> Result<(Outputs, K::Record), StepFault>
    ensures promoted { ComesTo ticket (promotion_planned node.old epoch master) result node.new }
    ensures recorded { IfOk result (λ made. K.recorded made.1 ≡ made.0) }
    ensures err { OnErr result (node.new ≡ node.old) }
    ensures exhausted { result ≢ Err Exhausted }
{
    let Some(handing) = node.handed_over() else {
        return Ok(plain::<K>(ticket, Response::Nothing));
    };
    let mut draft = node.blank();
    promote_by_plan(node, master, epoch, &handing.slots, &mut draft)?;
    Ok(make::<S, T, K>(node, ticket, &mut draft)?)
}
