//! A stream of which the last bytes are kept.
ghost use Rattle.std.specs.Prelude.{◌≤◌, length};

use crate::fault::StreamFault;
use crate::page_ring::PageRing;
use crate::stream::Stream;
use bus::StreamId;
use byte_string::ByteString;
use std::alloc::{AllocError, Global};

/// A stream of which the last bytes are kept, as many as find room in a ring of a fixed size. Only to make it takes memory.
#[derive(Drop)]
pub struct Backlog {
    id: StreamId,
    /// Where the bytes end.
    end: u64,
    /// The last ones before that.
    ring: PageRing,
    ghost within: { length ring.items ≤ end },
}

impl Stream for Backlog {
    ghost use Rattle.std.specs.Prelude.{◌^◌};
    ghost use Rattle.repl_stream.specs.Bodies.{last_of, overwritten};

    ghost held = { last_of };

    ghost room = { λ stream. 2 ^ 64 };

    ghost gives_up = { overwritten };

    ghost keeps = { λ stream. stream.ring.capacity };

    fn begin(alloc: Global, id: StreamId, kept: usize) -> Result<Backlog, AllocError> {
        let ring = PageRing::with_capacity(alloc, kept)?;
        Ok(Backlog { id, end: 0, ring })
    }

    fn id(&self) -> StreamId {
        self.id
    }

    fn first(&self) -> u64 {
        self.end - self.ring.len() as u64
    }

    fn end(&self) -> u64 {
        self.end
    }

    fn kept(&self) -> usize {
        self.ring.capacity()
    }

    fn reserve(&mut self, _count: usize) -> Result<(), AllocError> {
        Ok(())
    }

    fn append(&mut self, bytes: &[u8]) {
        self.ring.extend_from_slice(bytes);
        self.end += bytes.len() as u64;
    }

    fn piece(&self, alloc: Global, from: u64, most: usize) -> Result<ByteString, StreamFault> {
        let first = self.end - self.ring.len() as u64;
        if from < first {
            return Err(StreamFault::TooOld);
        }
        Ok(self.ring.part(alloc, from - first, most)?)
    }

    fn cut_at(&mut self, offset: u64, id: StreamId) {
        let kept = offset.saturating_sub(self.end - self.ring.len() as u64);
        self.ring.truncate_back(kept as usize);
        self.end = offset;
        self.id = id;
    }

    fn begin_at(&mut self, id: StreamId, offset: u64) {
        self.ring.clear();
        self.end = offset;
        self.id = id;
    }
}
