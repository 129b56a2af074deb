//! What a client's core is told, and what it wants done.

use crate::fault::ClientFault;
use redirection::Address;
use resp2::{Reply, Words};

/// What a client's core is told.
#[derive(Debug, Drop)]
pub enum Event {
    /// A call with these words begins.
    Call(Words),
    /// The connection to the address of the last [`Action::Connect`] can be used.
    Connected,
    /// There is no such connection, and none could be made.
    NotConnected,
    /// The reply to the words of the last [`Action::Send`].
    Reply(Reply),
    /// The bytes that came on the connection in use are no reply.
    BadReply,
    /// The connection in use failed or ended before the reply to the words of the last [`Action::Send`] came.
    Broken {
        /// A byte of these words was handed to the connection.
        handed: bool,
    },
    /// Memory was refused for what the last action wants.
    NoMemory {
        /// What was to be sent was handed to the connection before, all of it.
        handed: bool,
    },
}

/// What a client's core wants done.
#[derive(Debug, Drop)]
pub enum Action {
    /// The connection to this address is to be used from now on: the one that is kept, or else a new one.
    Connect(Address),
    /// The words are to be sent on the connection in use, and one reply is to be read there.
    Send(Words),
    /// The call is over.
    Done {
        /// The reply to the command, or the reason why there is none.
        answer: Result<Reply, ClientFault>,
        /// The connection in use, if there is one, is to be closed. One that didn't fail is kept otherwise.
        close: bool,
    },
}
