//! What a master answers to a replica that tells how far it is.
ghost use Rattle.std.specs.Prelude.{◌≡◌, ◌≤◌, IfOk};
ghost use Rattle.bus.specs.Stream.{end_of};
ghost use Rattle.bus.specs.Syncing.{answer_to, is_of_former, piece_from};

use crate::fault::StreamFault;
use crate::node_stream::NodeStream;
use crate::stream::Stream;
use bus::{MOST_PIECE_BYTES, Piece, Sync, SyncAnswer};
use std::alloc::{AllocError, Global};

impl<T: Stream> NodeStream<T> {
    /// What comes next for a replica. Where it says that this is a snapshot, the pairs are still to be read from the store.
    pub fn answer(&self, alloc: Global, sync: &Sync) -> Result<SyncAnswer, AllocError>
        ensures { IfOk result (λ answer. answer ≡ answer_to self.now.stream sync.now) }
    {
        let (first, end) = (self.stream.first(), self.stream.end());
        let is_same = sync.stream == self.id();
        if !is_same && !self.is_of_former(sync) {
            return Ok(SyncAnswer::Snapshot);
        }
        if sync.received < first || sync.received > end {
            return Ok(SyncAnswer::Snapshot);
        }
        if is_same && sync.received == end {
            return Ok(SyncAnswer::UpToDate);
        }
        let piece = self.piece_from(alloc, sync.received)?;
        Ok(SyncAnswer::Piece(piece))
    }

    fn is_of_former(&self, sync: &Sync) -> bool
        ensures { result ≡ is_of_former self.now.stream.former sync.now }
    {
        match self.former {
            None => false,
            Some(former) => sync.stream == former.stream && sync.received <= former.end,
        }
    }

    fn piece_from(&self, alloc: Global, from: u64) -> Result<Piece, AllocError>
        requires { (self.now.stream.held.first ≤ from) × (from ≤ end_of self.now.stream.held) }
        ensures { IfOk result (λ piece. piece ≡ piece_from self.now.stream from) }
    {
        let _end = self.stream.end();
        match self.stream.piece(alloc, from, MOST_PIECE_BYTES) {
            Ok(bytes) => Ok(Piece::new(self.id(), from, bytes, self.former).unwrap()),
            Err(StreamFault::Memory) => Err(AllocError),
            Err(StreamFault::TooOld) => unreachable!(),
        }
    }
}
