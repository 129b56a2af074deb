//! A stream of which all is kept.
ghost use Rattle.std.specs.Prelude.{◌+◌, ◌<◌, ◌^◌, length};

use crate::fault::StreamFault;
use crate::parts::part;
use crate::stream::Stream;
use bus::StreamId;
use byte_string::ByteString;
use std::alloc::{AllocError, Global};

/// A stream of which all bytes are kept, from where it began.
#[derive(Drop)]
pub struct WholeStream {
    id: StreamId,
    first: u64,
    bytes: Vec<u8>,
    // How many it has to keep. It keeps more.
    kept: usize,
    ghost fits: { first + length bytes.items < 2 ^ 64 },
}

impl Stream for WholeStream {
    ghost use Rattle.repl_stream.specs.Bodies.{all_of, spare};

    ghost held = { all_of };

    ghost room = { spare };

    ghost gives_up = { λ stream count. 0 };

    ghost keeps = { λ stream. stream.kept };

    fn begin(alloc: Global, id: StreamId, kept: usize) -> Result<WholeStream, AllocError> {
        Ok(WholeStream {
            id,
            first: 0,
            bytes: Vec::new(alloc),
            kept,
        })
    }

    fn id(&self) -> StreamId {
        self.id
    }

    fn first(&self) -> u64 {
        self.first
    }

    fn end(&self) -> u64 {
        self.first + self.bytes.len() as u64
    }

    fn kept(&self) -> usize {
        self.kept
    }

    fn reserve(&mut self, count: usize) -> Result<(), AllocError> {
        self.bytes.reserve(count)
    }

    fn append(&mut self, bytes: &[u8]) {
        let Ok(()) = self.bytes.extend_from_slice(bytes) else {
            unreachable!();
        };
    }

    fn piece(&self, alloc: Global, from: u64, most: usize) -> Result<ByteString, StreamFault> {
        if from < self.first {
            return Err(StreamFault::TooOld);
        }
        Ok(ByteString::copy_from_slice(
            alloc,
            part(self.bytes.as_slice(), from - self.first, most),
        )?)
    }

    fn cut_at(&mut self, offset: u64, id: StreamId) {
        self.bytes
            .truncate(offset.saturating_sub(self.first) as usize);
        self.first = self.first.min(offset);
        self.id = id;
    }

    fn begin_at(&mut self, id: StreamId, offset: u64) {
        self.bytes.clear();
        self.first = offset;
        self.id = id;
    }
}
