//! What messages say: of slots, of a stream and of elections.
ghost use Rattle.std.specs.Prelude.{◌≡◌};

use crate::piece::Piece;
use crate::snapshot::Snapshot;
use crate::stream_id::StreamId;
use crate::sync::Sync;
use key_slot::Slot;
use keyspace::Pairs;
use slot_state::{CopyId, MoveNo};
use slot_table::{Claim, Epoch, NodeNo};
use std::alloc::AllocError;

/// Whose place a node took as it was promoted, and where its own stream begins.
#[derive(Clone, Copy, PartialEq, Eq, Debug)]
pub struct Replaced {
    /// The former master.
    pub master: NodeNo,
    /// The stream that the node began.
    pub stream: StreamId,
    /// The offset at which it begins.
    pub offset: u64,
}

/// That the sender wants to be elected in the place of its master.
#[derive(Clone, Copy, PartialEq, Eq, Debug)]
pub struct Candidacy {
    /// The epoch of the election.
    pub epoch: Epoch,
    /// The master.
    pub master: NodeNo,
    /// The master hands its slots over to the sender.
    pub planned: bool,
}

/// What a master hands over to a replica, and where: it serves nothing any more.
#[derive(Debug, Drop)]
pub struct Handing {
    /// The master's stream.
    pub stream: StreamId,
    /// Where it ends.
    pub offset: u64,
    /// The master's slots, each in its epoch.
    pub slots: Claim,
}

impl Clone for Handing {
    ghost is_clone = { λ handing copy. copy ≡ handing };

    fn clone(&self) -> Result<Handing, AllocError> {
        Ok(Handing {
            stream: self.stream,
            offset: self.offset,
            slots: self.slots.clone()?,
        })
    }
}

/// What a message says of slots: of the move of one, or of all that the sender has.
#[derive(Debug, Drop)]
pub enum SlotsBody {
    /// Keys with their values, on their way to the node that their slot goes to. They are sent again until they are acknowledged.
    Copy {
        /// Which copy it is.
        id: CopyId,
        /// The keys, each with what the sender has at it.
        pairs: Pairs,
    },
    /// The answer to a copy: it was installed at the sender of this message.
    Ack(CopyId),
    /// The sender has no key of the slot left, which it gives away.
    Drained {
        /// The slot.
        slot: Slot,
        /// The move of the slot.
        number: MoveNo,
        /// The epoch in which the sender's table has the slot.
        epoch: Epoch,
    },
    /// The slots of the sender, each in its epoch, and whose place it took, if it was promoted.
    Claim(Claim, Option<Replaced>),
}

impl Clone for SlotsBody {
    ghost is_clone = { λ body copy. copy ≡ body };

    fn clone(&self) -> Result<SlotsBody, AllocError> {
        match self {
            SlotsBody::Copy { id, pairs } => Ok(SlotsBody::Copy {
                id: *id,
                pairs: pairs.clone()?,
            }),
            SlotsBody::Ack(id) => Ok(SlotsBody::Ack(*id)),
            SlotsBody::Drained {
                slot,
                number,
                epoch,
            } => Ok(SlotsBody::Drained {
                slot: *slot,
                number: *number,
                epoch: *epoch,
            }),
            SlotsBody::Claim(claim, replaced) => Ok(SlotsBody::Claim(claim.clone()?, *replaced)),
        }
    }
}

/// What a message says of a stream of writes.
#[derive(Debug, Drop)]
pub enum StreamBody {
    /// How much the sender received of its master's stream.
    Sync(Sync),
    /// Bytes of the sender's stream.
    Piece(Piece),
    /// All that the sender has at an offset of its stream.
    Snapshot(Snapshot),
}

impl Clone for StreamBody {
    ghost is_clone = { λ body copy. copy ≡ body };

    fn clone(&self) -> Result<StreamBody, AllocError> {
        match self {
            StreamBody::Sync(sync) => Ok(StreamBody::Sync(*sync)),
            StreamBody::Piece(piece) => Ok(StreamBody::Piece(piece.clone()?)),
            StreamBody::Snapshot(snapshot) => Ok(StreamBody::Snapshot(snapshot.clone()?)),
        }
    }
}

/// What a message says of an election, or of a handover, which ends in one.
#[derive(Debug, Drop)]
pub enum ElectionBody {
    /// The sender wants to be elected.
    Candidacy(Candidacy),
    /// The sender votes in this epoch for the node that the message is for.
    Grant(Epoch),
    /// The sender, a replica, wants its master to hand over; it has a part of this stream.
    Pause(StreamId),
    /// The sender, a master, hands its slots over to the replica that the message is for.
    Paused(Handing),
}

impl Clone for ElectionBody {
    ghost is_clone = { λ body copy. copy ≡ body };

    fn clone(&self) -> Result<ElectionBody, AllocError> {
        match self {
            ElectionBody::Candidacy(candidacy) => Ok(ElectionBody::Candidacy(*candidacy)),
            ElectionBody::Grant(epoch) => Ok(ElectionBody::Grant(*epoch)),
            ElectionBody::Pause(stream) => Ok(ElectionBody::Pause(*stream)),
            ElectionBody::Paused(handing) => Ok(ElectionBody::Paused(handing.clone()?)),
        }
    }
}
