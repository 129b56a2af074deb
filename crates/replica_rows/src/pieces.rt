//! What a step writes, as messages to the node's replicas.
ghost use Rattle.std.specs.Prelude.{◌≡◌, ◌++◌, ◌+◌, ◌<◌, ◌^◌, [], false, length, IfNone, IfOk, IfSome, OnOk};
ghost use Rattle.bus.specs.Stream.{end_of};
ghost use Rattle.bus.specs.declared.bodies.StreamBody.TheVariants.{Piece as SaysPiece};
ghost use Rattle.bus.specs.declared.message.Body.TheVariants.{Stream as OfStream};
ghost use Rattle.node_step.specs.Roles.{replicas_of};
ghost use Rattle.replica_rows.specs.Adding.{piece_of, pieces_of, IsLastReplica, piece_below};

use bus::{Body, Piece, StreamBody};
use node_parts::NodeParts;
use repl_stream::{Stream, Written};
use slot_store::SlotParts;
use slot_table::NodeNo;
use std::alloc::AllocError;

/// Puts a piece for each replica of the node behind these messages, by rising number. All share the bytes, if they are long.
#[tactic(auto, using(crate::proofs::PieceLemmas::none_sent, crate::proofs::PieceLemmas::last_sent))]
pub(crate) fn append_pieces<S: SlotParts, T: Stream>(
    node: &NodeParts<S, T>,
    written: &Written,
    bodies: &mut Vec<(NodeNo, Body)>,
) -> Result<(), AllocError>
    requires spelled { written.now.is_counted ≡ false }
    requires end { end_of node.now.stream.held + length written.now.bytes < 2 ^ 64 }
    ensures { OnOk result (bodies.new.items ≡ bodies.old.items ++ pieces_of node.now written.now.bytes) }
{
    let Some(last) = last_replica(node) else {
        return Ok(());
    };
    let piece = piece_of(node, written)?;
    append_below(node, last, &piece, bodies)?;
    bodies.push((last, Body::Stream(StreamBody::Piece(piece))))?;
    Ok(())
}

// The last node that copies this one.
pub(crate) fn last_replica<S: SlotParts, T: Stream>(node: &NodeParts<S, T>) -> Option<NodeNo>
    ensures none { IfNone result (replicas_of node.now.masters node.now.number ≡ []) }
    ensures last { IfSome result (λ last. IsLastReplica node.now last) }
{
    let mut last = None;
    for place in 0..node.masters().len() {
        let other = NodeNo::new(place as u8).unwrap();
        if node.has_replica(other) {
            last = Some(other);
        }
    }
    last
}

// The piece for each replica below that node.
fn append_below<S: SlotParts, T: Stream>(
    node: &NodeParts<S, T>,
    last: NodeNo,
    piece: &Piece,
    bodies: &mut Vec<(NodeNo, Body)>,
) -> Result<(), AllocError>
    ensures { OnOk result
        (bodies.new.items ≡ bodies.old.items ++ piece_below node.now last piece.now) }
{
    for place in 0..last.index() {
        let to = NodeNo::new(place as u8).unwrap();
        if node.has_replica(to) {
            bodies.push((to, Body::Stream(StreamBody::Piece(piece.clone()?))))?;
        }
    }
    Ok(())
}

// The bytes as a piece of the node's stream, behind what is there.
fn piece_of<S: SlotParts, T: Stream>(
    node: &NodeParts<S, T>,
    written: &Written,
) -> Result<Piece, AllocError>
    requires spelled { written.now.is_counted ≡ false }
    requires end { end_of node.now.stream.held + length written.now.bytes < 2 ^ 64 }
    ensures { IfOk result (λ piece. OfStream (SaysPiece piece) ≡ piece_of node.now written.now.bytes) }
{
    let stream = &node.stream;
    let bytes = written.to_byte_string(node.alloc)?;
    Ok(Piece::new(stream.id(), stream.received(), bytes, stream.former()).unwrap())
}
