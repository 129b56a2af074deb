//! A replica follows its master's stream.
ghost use Rattle.std.specs.Prelude.{◌≡◌, OnOk, OnErr};
ghost use Rattle.node_step.specs.Replicas.{restored_by};
ghost use Rattle.node_step.specs.Roles.{is_just};
ghost use Rattle.node_step.specs.State.{own_master};
ghost use Rattle.replica_rows.specs.Following.{Follows, TakesOrNot, with_snapshot};

use bus::{Piece, Snapshot};
use node_parts::NodeParts;
use repl_stream::{OfferFault, Replaces, Stream};
use slot_store::SlotParts;
use slot_table::NodeNo;
use std::alloc::AllocError;

/// Takes a piece of the own master's stream, which executes the writes there. One that can't be taken changes nothing.
#[tactic(auto, using(crate::proofs::FollowingLemmas::own_piece, crate::proofs::FollowingLemmas::other_piece))]
pub fn take_piece<S: SlotParts, T: Stream>(
    node: &mut NodeParts<S, T>,
    from: NodeNo,
    piece: &Piece,
) -> Result<(), AllocError>
    ensures ok { OnOk result (Follows node.old from piece.now node.new) }
    ensures err { OnErr result (node.new ≡ node.old) }
{
    if !is_own_master(node, from) {
        return Ok(());
    }
    offer(node, piece)?;
    Ok(())
}

// Offers the piece. Only a refusal of memory counts.
#[tactic(auto, using(crate::proofs::FollowingLemmas::piece_taken, crate::proofs::FollowingLemmas::piece_gap, crate::proofs::FollowingLemmas::piece_of_other))]
fn offer<S: SlotParts, T: Stream>(
    node: &mut NodeParts<S, T>,
    piece: &Piece,
) -> Result<(), AllocError>
    ensures ok { OnOk result (TakesOrNot node.old piece.now node.new) }
    ensures err { OnErr result (node.new ≡ node.old) }
{
    if let Err(fault) = node.stream.offer(node.alloc, &mut node.store, piece) {
        return match fault {
            OfferFault::Gap => Ok(()),
            OfferFault::OtherStream => Ok(()),
            OfferFault::Memory => Err(AllocError),
        };
    }
    Ok(())
}

fn is_own_master<S: SlotParts, T: Stream>(node: &NodeParts<S, T>, from: NodeNo) -> bool
    ensures { result ≡ is_just (own_master node.now) from }
{
    node.own_master() == Some(from)
}

/// Takes all that the own master had, in place of what is here.
#[tactic(auto, using(crate::proofs::FollowingLemmas::own_snapshot, crate::proofs::FollowingLemmas::other_snapshot))]
pub fn take_snapshot<S: SlotParts + Replaces, T: Stream>(
    node: &mut NodeParts<S, T>,
    from: NodeNo,
    snapshot: &Snapshot,
) -> Result<(), AllocError>
    ensures ok { OnOk result (node.new ≡ (restored_by node.old from snapshot.now).state) }
    ensures err { OnErr result (node.new ≡ node.old) }
{
    if !is_own_master(node, from) {
        return Ok(());
    }
    restore(node, snapshot)?;
    Ok(())
}

fn restore<S: SlotParts + Replaces, T: Stream>(
    node: &mut NodeParts<S, T>,
    snapshot: &Snapshot,
) -> Result<(), AllocError>
    ensures ok { OnOk result (node.new ≡ with_snapshot node.old snapshot.now) }
    ensures err { OnErr result (node.new ≡ node.old) }
{
    node.stream.snapshot(node.alloc, &mut node.store, snapshot)
}
