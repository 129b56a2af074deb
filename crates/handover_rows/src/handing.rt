//! A master hands its slots over to a replica.
ghost use Rattle.std.specs.Prelude.{◌≡◌, ◌++◌, IfOk, OnOk};
ghost use Rattle.node_parts.specs.Drafts.{Drafts, HasNothing, bodies_of};
ghost use Rattle.node_parts.specs.Telling.{paused_again};
ghost use Rattle.node_step.specs.Handovers.{asked_to_pause, handed_to, handing_of, is_free_for, may_pause};

use bus::{Body, ElectionBody, Handing, StreamId};
use node_parts::{Change, Draft, NodeParts, listed};
use node_step::Releases;
use repl_stream::Stream;
use slot_store::SlotParts;
use slot_table::NodeNo;
use std::alloc::AllocError;

/// A node that has a part of that stream asks this one to hand over. A master does, if the node is its replica and has its stream, no
/// slot is on the move, and it hands over to no other node.
pub fn hand_over<S: SlotParts, T: Stream>(
    node: &NodeParts<S, T>,
    from: NodeNo,
    stream: StreamId,
    draft: &mut Draft,
) -> Result<(), AllocError>
    requires { HasNothing node.now draft.old }
    ensures { OnOk result (Drafts node.now (asked_to_pause node.now from stream) draft.new) }
{
    if !may_pause(node, from, stream) {
        node.draft_change(draft, Change::Nothing);
        return Ok(());
    }
    let bodies = listed(node.alloc, handed_to(node, from)?)?;
    let change = Change::Pauses { replica: from };
    node.draft_releases(draft, Releases::new(), bodies, change);
    Ok(())
}

// Whether the node hands over to that one, which has a part of that stream.
fn may_pause<S: SlotParts, T: Stream>(
    node: &NodeParts<S, T>,
    from: NodeNo,
    stream: StreamId,
) -> bool
    ensures { result ≡ may_pause node.now from stream }
{
    !node.is_replica()
        && node.has_replica(from)
        && stream == node.stream.id()
        && node.moves.are_none()
        && is_free_for(node.paused, from)
}

// Whether it hands over to nobody, or to that one.
fn is_free_for(paused: Option<NodeNo>, replica: NodeNo) -> bool
    ensures { result ≡ is_free_for paused replica }
{
    match paused {
        None => true,
        Some(other) => other == replica,
    }
}

// What the replica is told: at first in any case, and again as long as the node has a slot.
fn handed_to<S: SlotParts, T: Stream>(
    node: &NodeParts<S, T>,
    replica: NodeNo,
) -> Result<Option<(NodeNo, Body)>, AllocError>
    ensures { IfOk result (λ body. bodies_of body ≡ handed_to node.now replica node.now.paused) }
{
    let handing = handing(node)?;
    if node.paused.is_some() && handing.slots.runs().is_empty() {
        return Ok(None);
    }
    Ok(Some((replica, Body::Election(ElectionBody::Paused(handing)))))
}

/// Tells the replica once more behind these messages, if the node hands over to one and still has a slot.
pub fn append_paused<S: SlotParts, T: Stream>(
    node: &NodeParts<S, T>,
    bodies: &mut Vec<(NodeNo, Body)>,
) -> Result<(), AllocError>
    ensures { OnOk result (bodies.new.items ≡ bodies.old.items ++ paused_again node.now) }
{
    let Some(replica) = node.paused else {
        return Ok(());
    };
    let handing = handing(node)?;
    if !handing.slots.runs().is_empty() {
        bodies.push((replica, Body::Election(ElectionBody::Paused(handing))))?;
    }
    Ok(())
}

// Where the stream of the node ends, and which slots it has.
fn handing<S: SlotParts, T: Stream>(node: &NodeParts<S, T>) -> Result<Handing, AllocError>
    ensures { IfOk result (λ handing. handing ≡ handing_of node.now) }
{
    Ok(Handing {
        stream: node.stream.id(),
        offset: node.stream.offset(),
        slots: node.table.claim_of(node.alloc, node.number)?,
    })
}
