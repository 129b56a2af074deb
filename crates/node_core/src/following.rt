//! What another node says of a stream of writes. Where a replica follows its master's, nothing is sent, so that is made at once and not drafted.
ghost use Rattle.std.specs.Prelude.{◌≡◌, ◌≢◌, Err, IfOk, OnErr};
ghost use Rattle.bus.specs.declared.bodies.StreamBody.TheVariants.{Piece as SaysPiece, Snapshot as SaysSnapshot, Sync as SaysSync};
ghost use Rattle.bus.specs.declared.message.Body.TheVariants.{Stream as OfStream};
ghost use Rattle.node_core.specs.Comes.{Takes};
ghost use Rattle.step_fault.specs.declared.fault.StepFault.TheVariants.{Exhausted};

use bus::{Piece, Snapshot, StreamBody, Sync};
use node_parts::NodeParts;
use node_step::{Outputs, Recorder, Response, StepFault};
use repl_stream::{Replaces, Stream};
use replica_rows::{answer_sync, take_piece, take_snapshot};
use slot_store::SlotParts;
use slot_table::NodeNo;
use step_making::{make, plain};

/// Takes what that node says.
pub(crate) fn take_of_stream<S: SlotParts + Replaces, T: Stream, K: Recorder>(
    node: &mut NodeParts<S, T>,
    ticket: u64,
    from: NodeNo,
    body: &StreamBody,
) -> Result<(Outputs, K::Record), StepFault>
    ensures taken { Takes ticket node.old from (OfStream body.now) result node.new }
    ensures recorded { IfOk result (λ made. K.recorded made.1 ≡ made.0) }
    ensures err { OnErr result (node.new ≡ node.old) }
    ensures exhausted { result ≢ Err Exhausted }
{
    match body {
        StreamBody::Sync(sync) => answer::<S, T, K>(node, ticket, from, sync),
        StreamBody::Piece(piece) => follow_piece::<S, T, K>(node, ticket, from, piece),
        StreamBody::Snapshot(snapshot) => follow_snapshot::<S, T, K>(node, ticket, from, snapshot),
    }
}

// Answers a replica, which says how much of the stream it has.
#[tactic(auto, using(crate::proofs::MessageLemmas::sync_drafted, node_parts::proofs::ChangeLemmas::draft_can_be_made, node_parts::proofs::ChangeLemmas::made_comes))]
fn answer<S: SlotParts, T: Stream, K: Recorder>(
    node: &mut NodeParts<S, T>,
    ticket: u64,
    from: NodeNo,
    sync: &Sync,
) -> Result<(Outputs, K::Record), StepFault>
    ensures taken { Takes ticket node.old from (OfStream (SaysSync sync.now)) result node.new }
    ensures recorded { IfOk result (λ made. K.recorded made.1 ≡ made.0) }
    ensures err { OnErr result (node.new ≡ node.old) }
    ensures exhausted { result ≢ Err Exhausted }
{
    let mut draft = node.blank();
    answer_sync(node, from, sync, &mut draft)?;
    Ok(make::<S, T, K>(node, ticket, &mut draft)?)
}

// Takes a piece of the own master's stream.
fn follow_piece<S: SlotParts, T: Stream, K: Recorder>(
    node: &mut NodeParts<S, T>,
    ticket: u64,
    from: NodeNo,
    piece: &Piece,
) -> Result<(Outputs, K::Record), StepFault>
    ensures taken { Takes ticket node.old from (OfStream (SaysPiece piece.now)) result node.new }
    ensures recorded { IfOk result (λ made. K.recorded made.1 ≡ made.0) }
    ensures err { OnErr result (node.new ≡ node.old) }
    ensures exhausted { result ≢ Err Exhausted }
{
    take_piece(node, from, piece)?;
    Ok(plain::<K>(ticket, Response::Nothing))
}

// Takes a snapshot of the own master's keys.
fn follow_snapshot<S: SlotParts + Replaces, T: Stream, K: Recorder>(
    node: &mut NodeParts<S, T>,
    ticket: u64,
    from: NodeNo,
    snapshot: &Snapshot,
) -> Result<(Outputs, K::Record), StepFault>
    ensures taken { Takes ticket node.old from (OfStream (SaysSnapshot snapshot.now)) result node.new }
    ensures recorded { IfOk result (λ made. K.recorded made.1 ≡ made.0) }
    ensures err { OnErr result (node.new ≡ node.old) }
    ensures exhausted { result ≢ Err Exhausted }
{
    take_snapshot(node, from, snapshot)?;
    Ok(plain::<K>(ticket, Response::Nothing))
}
