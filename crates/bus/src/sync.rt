//! What a replica asks its master for.
use crate::stream_id::StreamId;

/// How far a replica is: its master answers with what comes next.
#[derive(Clone, Copy, PartialEq, Eq, Debug)]
pub struct Sync {
    /// The stream that it has.
    pub stream: StreamId,
    /// Where the bytes that it received end.
    pub received: u64,
}
