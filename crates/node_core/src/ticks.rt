//! Ticks of a node's time.
ghost use Rattle.std.specs.Prelude.{◌≡◌, ◌++◌, Err, IfOk, OnErr, OnOk};
ghost use Rattle.node_core.specs.Ticking.{ticked_in, told_in};
ghost use Rattle.node_core.specs.Comes.{Steps};
ghost use Rattle.node_parts.specs.Drafts.{Drafts, HasNothing};
ghost use Rattle.node_parts.specs.Electing.{KeepsRest};
ghost use Rattle.node_step.specs.Numbers.{NoNumberLeft};
ghost use Rattle.node_step.specs.Ticks.{slots_tick};
ghost use Rattle.node_step.specs.declared.event.Event.TheVariants.{Tick};
ghost use Rattle.step_fault.specs.declared.fault.StepFault.TheVariants.{Exhausted};

use bus::Body;
use command_table::ErrorLine;
use connections::Waiting;
use election_rows::{append_requests, append_signs};
use handover_rows::{append_pause, append_paused};
use move_rows::sent_again;
use node_parts::{Change, Draft, NodeParts};
use node_step::{Outputs, Recorder, Releases, StepFault};
use repl_stream::Stream;
use replica_rows::append_sync;
use slot_store::SlotParts;
use slot_table::{Epoch, NodeNo};
use std::alloc::AllocError;
use step_making::make;

/// Lets a tick pass: the node grows older, an election begins, if it is due, waits end, and others are told.
#[tactic(auto, using(crate::proofs::TickLemmas::tick_is_step, crate::proofs::TickLemmas::tick_can_be_made))]
pub(crate) fn pass_tick<S: SlotParts, T: Stream, K: Recorder>(
    node: &mut NodeParts<S, T>,
    ticket: u64,
) -> Result<(Outputs, K::Record), StepFault>
    ensures step { Steps ticket node.old Tick result node.new }
    ensures recorded { IfOk result (λ made. K.recorded made.1 ≡ made.0) }
    ensures err { OnErr result (KeepsRest node.old node.new) }
    ensures exhausted { result ≡ Err Exhausted → NoNumberLeft node.old Tick }
{
    node.keep_claim()?;
    node.grow_older();
    let epoch = node.begin_election()?;
    let mut draft = node.blank();
    draft_tick(node, epoch, &mut draft)?;
    Ok(make::<S, T, K>(node, ticket, &mut draft)?)
}

// Drafts a tick of a node that has grown older, and began an election in that epoch, if in any.
fn draft_tick<S: SlotParts, T: Stream>(
    node: &NodeParts<S, T>,
    epoch: Option<Epoch>,
    draft: &mut Draft,
) -> Result<(), AllocError>
    requires { HasNothing node.now draft.old }
    ensures { OnOk result (Drafts node.now (ticked_in node.now epoch) draft.new) }
{
    let released = released(node)?;
    let bodies = sent(node, epoch)?;
    node.draft_releases(draft, released, bodies, Change::Ages);
    Ok(())
}

// What connections get that waited as long as they wanted.
fn released<S: SlotParts, T: Stream>(node: &NodeParts<S, T>) -> Result<Releases, AllocError>
    ensures { IfOk result (λ released. released ≡ (slots_tick node.now).released) }
{
    let reply = ErrorLine::NotAcknowledged.reply();
    let released = node.releases(&Waiting::Over, &reply)?;
    Ok(released)
}

// What others are sent: copies again, and behind them what a tick tells.
fn sent<S: SlotParts, T: Stream>(
    node: &NodeParts<S, T>,
    epoch: Option<Epoch>,
) -> Result<Vec<(NodeNo, Body)>, AllocError>
    ensures { IfOk result (λ bodies. bodies.items ≡ (ticked_in node.now epoch).sent) }
{
    let mut bodies = sent_again(node)?;
    append_told(node, epoch, &mut bodies)?;
    Ok(bodies)
}

// Which slots the node has, whom it suspects, how far it is as a replica, what is said of a handover, and that it asks for votes.
fn append_told<S: SlotParts, T: Stream>(
    node: &NodeParts<S, T>,
    epoch: Option<Epoch>,
    bodies: &mut Vec<(NodeNo, Body)>,
) -> Result<(), AllocError>
    ensures { OnOk result (bodies.new.items ≡ bodies.old.items ++ told_in node.now epoch) }
{
    append_signs(node, bodies)?;
    append_sync(node, bodies)?;
    append_pause(node, bodies)?;
    append_paused(node, bodies)?;
    append_requests(node, epoch, bodies)?;
    Ok(())
}
