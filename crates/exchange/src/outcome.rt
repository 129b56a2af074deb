//! What comes of a request.

use resp2::Reply;

/// What comes of a request.
#[derive(Debug, Drop)]
pub enum Outcome {
    /// The reply.
    Reply(Reply),
    /// The bytes that came are no reply.
    BadReply,
    /// The connection failed or ended before the reply came.
    Broken {
        /// A byte of the request was handed to it.
        handed: bool,
    },
    /// Memory was refused.
    NoMemory {
        /// The request was handed to the connection before, all of it.
        handed: bool,
    },
}
