//! What happens to a node.
ghost use Rattle.std.specs.Prelude.{◌≡◌};

use bus::Message;
use connections::Conn;
use resp_values::Words;
use std::alloc::AllocError;

/// What a node takes a step for.
#[derive(Debug, Drop)]
pub enum Event {
    /// A client connects.
    Open,
    /// The client of a connection is gone.
    Close(Conn),
    /// A client asks something.
    Request(Conn, Words),
    /// A message of another node arrives.
    Deliver(Message),
    /// Time passes.
    Tick,
}

impl Clone for Event {
    ghost is_clone = { λ event copy. copy ≡ event };

    fn clone(&self) -> Result<Event, AllocError> {
        match self {
            Event::Open => Ok(Event::Open),
            Event::Close(conn) => Ok(Event::Close(*conn)),
            Event::Request(conn, words) => Ok(Event::Request(*conn, words.clone()?)),
            Event::Deliver(message) => Ok(Event::Deliver(message.clone()?)),
            Event::Tick => Ok(Event::Tick),
        }
    }
}
