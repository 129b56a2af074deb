//! What a node knows of a connection.

use redirect::Asking;
use slot_state::CopyId;

/// The name of a connection at its node.
#[derive(Clone, Copy, PartialEq, Eq, Debug)]
pub struct Conn {
    /// Its place: free again once the connection is closed.
    pub key: usize,
    /// How many connections had this key before.
    pub generation: u64,
}

/// What a connection waits for: the acknowledgement of a copy.
#[derive(Clone, Copy, PartialEq, Eq, Debug)]
pub struct Wait {
    /// The copy.
    pub id: CopyId,
    /// How many ticks it still waits.
    pub ticks: u32,
}

/// What a node knows of a connection that is open.
#[derive(Clone, Copy, PartialEq, Eq, Debug)]
pub struct Connection {
    /// How many connections had its key before.
    pub generation: u64,
    /// What its last request, an ASKING, allows the next one.
    pub asking: Asking,
    /// Its ASK lines end with the number of the move.
    pub numbered: bool,
    /// What its reply waits for. Until then it may not send a request.
    pub waits: Option<Wait>,
}
