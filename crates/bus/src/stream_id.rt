//! Which stream it is.
use slot_table::{Epoch, NodeNo};

/// Whose writes a stream has: the master that began it, and the epoch of its promotion.
#[derive(Clone, Copy, PartialEq, Eq, Debug)]
pub struct StreamId {
    /// The master.
    pub node: NodeNo,
    /// The epoch of its promotion, or 0 for one that was a master from the start.
    pub epoch: Epoch,
}

/// The end of a stream that another one goes on from.
#[derive(Clone, Copy, PartialEq, Eq, Debug)]
pub struct Base {
    /// The former stream.
    pub stream: StreamId,
    /// Where it ended.
    pub end: u64,
}
