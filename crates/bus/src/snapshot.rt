//! A whole keyspace, and the place in a stream that it is of.
ghost use Rattle.std.specs.Prelude.{◌≡◌};

use crate::stream_id::StreamId;
use keyspace::Pairs;
use std::alloc::AllocError;

/// What a stream's writes up to an offset leave. A copy shares the pairs.
#[derive(Debug)]
pub struct Snapshot {
    /// The stream.
    pub stream: StreamId,
    /// Where in the stream it is, which is the end of a write.
    pub offset: u64,
    /// All keys with their values.
    pub pairs: Pairs,
}

impl Drop for Snapshot {
    fn drop(self) {
        let Snapshot {
            stream: _,
            offset: _,
            pairs: _,
        } = self;
    }
}

impl Clone for Snapshot {
    ghost is_clone = { λ snapshot copy. copy ≡ snapshot };

    fn clone(&self) -> Result<Snapshot, AllocError> {
        Ok(Snapshot {
            stream: self.stream,
            offset: self.offset,
            pairs: self.pairs.clone()?,
        })
    }
}
