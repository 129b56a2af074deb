//! A place where a node is served.
ghost use Rattle.std.specs.Prelude.{◌≡◌};

use link_ends::{PortEnd, PortEnds};
use std::net::TcpListener;
use tickets::Seat;

/// Where a node is served, which has ends of the kind `E`. The first place is that of the first node, and so on.
pub struct Place<E: PortEnd> {
    /// Its seat at the tickets.
    pub seat: Seat,
    /// Its ends of the links to all nodes.
    pub ends: PortEnds<E>,
    /// Where its clients connect.
    pub listener: TcpListener,
}

// It does what the derive would. Written out it is one call wherever a place is let go.
impl<E: PortEnd> Drop for Place<E> {
    fn drop(self) {
        let Place {
            seat: _,
            ends: _,
            listener: _,
        } = self;
    }
}

impl<E: PortEnd> Place<E> {
    // What is there.
    pub(crate) fn into_parts(self) -> (Seat, PortEnds<E>, TcpListener)
        ensures seat { result.0 ≡ self.seat }
        ensures ends { result.1 ≡ self.ends }
    {
        let Place {
            seat,
            ends,
            listener,
        } = self;
        (seat, ends, listener)
    }
}
