//! What all other nodes are told at a tick.
ghost use Rattle.std.specs.Prelude.{◌≡◌, ◌++◌, IfOk, OnOk};
ghost use Rattle.election.specs.Failing.{suspected};
ghost use Rattle.node_step.specs.Failing.{members_of};
ghost use Rattle.node_step.specs.Ticks.{signs};
ghost use Rattle.node_parts.specs.Telling.{claims_of, own_claim, reports_of};

use bus::{Body, SlotsBody, Suspects};
use node_parts::NodeParts;
use repl_stream::Stream;
use slot_store::SlotParts;
use slot_table::NodeNo;
use std::alloc::AllocError;

/// Puts the slots that the node has, and whom it suspects, for all other nodes behind these messages. They are a sign that it
/// lives, also where there are none.
pub fn append_signs<S: SlotParts, T: Stream>(
    node: &NodeParts<S, T>,
    bodies: &mut Vec<(NodeNo, Body)>,
) -> Result<(), AllocError>
    ensures { OnOk result (bodies.new.items ≡ bodies.old.items ++ signs node.now) }
{
    append_claims(node, bodies)?;
    append_reports(node, bodies)?;
    Ok(())
}

// The claim of the node for each other one.
fn append_claims<S: SlotParts, T: Stream>(
    node: &NodeParts<S, T>,
    bodies: &mut Vec<(NodeNo, Body)>,
) -> Result<(), AllocError>
    ensures { OnOk result (bodies.new.items ≡ bodies.old.items ++ claims_of node.now) }
{
    let claim = claim(node)?;
    node.append_to_others(&claim, bodies)?;
    Ok(())
}

// Its report for each other one.
fn append_reports<S: SlotParts, T: Stream>(
    node: &NodeParts<S, T>,
    bodies: &mut Vec<(NodeNo, Body)>,
) -> Result<(), AllocError>
    ensures { OnOk result (bodies.new.items ≡ bodies.old.items ++ reports_of node.now) }
{
    let report = report(node);
    node.append_to_others(&report, bodies)?;
    Ok(())
}

// The slots of the node, and whose place it took.
fn claim<S: SlotParts, T: Stream>(node: &NodeParts<S, T>) -> Result<Body, AllocError>
    ensures { IfOk result (λ body. body ≡ own_claim node.now) }
{
    let claim = node.table.claim_of(node.alloc, node.number)?;
    Ok(Body::Slots(SlotsBody::Claim(claim, node.election.replaced)))
}

// Whom it suspects.
fn report<S: SlotParts, T: Stream>(node: &NodeParts<S, T>) -> Body
    ensures { result ≡ Body.Report (suspected node.now.health (members_of node.now)) }
{
    let suspected = node.election.health.suspected(&node.members());
    Body::Report(Suspects::new(suspected))
}
