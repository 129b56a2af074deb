//! What the nodes of a cluster send each other, and the values of streams that they send.
#![tactic(auto)]

mod answer;
mod bodies;
mod link;
mod message;
mod piece;
mod snapshot;
mod stream_id;
mod suspects;
mod sync;

pub use answer::{MOST_PIECE_BYTES, SyncAnswer};
pub use bodies::{Candidacy, ElectionBody, Handing, Replaced, SlotsBody, StreamBody};
pub use link::Link;
pub use message::{Body, Message};
pub use piece::Piece;
pub use snapshot::Snapshot;
pub use stream_id::{Base, StreamId};
pub use suspects::Suspects;
pub use sync::Sync;
