//! Votes, and who is asked for them.
ghost use Rattle.std.specs.Prelude.{◌≡◌, ◌++◌, IfOk, OnOk};
ghost use Rattle.election.specs.Members.{is_voter};
ghost use Rattle.node_parts.specs.Drafts.{Drafts, HasNothing};
ghost use Rattle.node_parts.specs.Telling.{telling, vote_requests};
ghost use Rattle.node_step.specs.Failing.{members_of};
ghost use Rattle.node_step.specs.Orders.{to_all};
ghost use Rattle.node_step.specs.Voting.{grant_to, voters_of};

use bus::{Body, Candidacy, ElectionBody};
use election::VoteRequest;
use node_parts::{Change, Draft, NodeParts};
use node_step::Releases;
use repl_stream::Stream;
use slot_store::SlotParts;
use slot_table::{Epoch, NodeNo};
use std::alloc::{AllocError, Global};

/// Asks all voters for their votes behind these messages, if an election of the node began in that epoch.
pub fn append_requests<S: SlotParts, T: Stream>(
    node: &NodeParts<S, T>,
    epoch: Option<Epoch>,
    bodies: &mut Vec<(NodeNo, Body)>,
) -> Result<(), AllocError>
    ensures { OnOk result (bodies.new.items ≡ bodies.old.items ++ vote_requests node.now epoch) }
{
    let Some(epoch) = epoch else {
        return Ok(());
    };
    let Some(master) = node.own_master() else {
        return Ok(());
    };
    let request = Body::Election(ElectionBody::Candidacy(Candidacy {
        epoch,
        master,
        planned: node.may_take_over(),
    }));
    append_to_voters(node, &request, bodies)?;
    Ok(())
}

// The body goes to each voter, by rising number, to this node too if it is one.
fn append_to_voters<S: SlotParts, T: Stream>(
    node: &NodeParts<S, T>,
    body: &Body,
    bodies: &mut Vec<(NodeNo, Body)>,
) -> Result<(), AllocError>
    ensures { OnOk result (bodies.new.items ≡ bodies.old.items ++ to_all (voters_of node.now) body.now) }
{
    for place in 0..node.config.nodes().len() {
        let to = NodeNo::new(place as u8).unwrap();
        if is_voter(node, to) {
            bodies.push((to, body.clone()?))?;
        }
    }
    Ok(())
}

fn is_voter<S: SlotParts, T: Stream>(node: &NodeParts<S, T>, other: NodeNo) -> bool
    ensures { result ≡ is_voter (members_of node.now) other }
{
    node.config.voters().iter().any(|voter| *voter == other)
}

/// What comes of a request for a vote: the grant, if the node votes so.
pub fn write_vote<S: SlotParts, T: Stream>(
    node: &NodeParts<S, T>,
    request: VoteRequest,
    granted: bool,
    draft: &mut Draft,
) -> Result<(), AllocError>
    requires { HasNothing node.now draft.old }
    ensures { OnOk result (Drafts node.now (telling node.now (grant_to request granted)) draft.new) }
{
    let bodies = grant_to(node.alloc, request, granted)?;
    node.draft_releases(draft, Releases::new(), bodies, Change::Nothing);
    Ok(())
}

// The grant for the candidate.
fn grant_to(
    alloc: Global,
    request: VoteRequest,
    granted: bool,
) -> Result<Vec<(NodeNo, Body)>, AllocError>
    ensures { IfOk result (λ bodies. bodies.items ≡ grant_to request granted) }
{
    let mut bodies = Vec::new(alloc);
    if granted {
        bodies.push((
            request.candidate,
            Body::Election(ElectionBody::Grant(request.epoch)),
        ))?;
    }
    Ok(bodies)
}
