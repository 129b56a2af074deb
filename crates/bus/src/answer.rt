//! What a master answers to a replica that tells how far it is.
use crate::piece::Piece;

/// The most bytes of a piece that answers a replica.
pub const MOST_PIECE_BYTES: usize = 65_536;

/// What comes next for a replica.
#[derive(Debug, Drop)]
pub enum SyncAnswer {
    /// Nothing: the replica has all.
    UpToDate,
    /// Bytes from where it is.
    Piece(Piece),
    /// All pairs of the keyspace: the stream can't be followed on from there.
    Snapshot,
}
