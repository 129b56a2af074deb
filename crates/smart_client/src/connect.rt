//! How connections are made.
ghost use Rattle.std.specs.Prelude.{◌≡◌, IfOk, IfErr, OnOk};
ghost use Rattle.smart_client.specs.Wires.{Misses};

use redirection::Address;
use std::alloc::AllocError;
use std::io::{Read, Write};

/// An end of a connection: what comes from a node, or goes to it.
pub trait Reaches {
    ghost use Rattle.redirection.specs.Address.{Place};

    /// Where that node is.
    ghost place: { Self → Place };
}

/// Makes connections to nodes.
pub trait Connect {
    ghost use Rattle.std.specs.Prelude.{ℕ};

    /// What a node's replies are read from.
    type Reader: Read + Reaches + Drop;
    /// What requests are written to.
    type Writer: Write + Reaches + Drop;

    /// How often no node was reached, up to `u64::MAX`.
    ghost failures: { Self → ℕ };

    /// A new connection to the node at the address: what its replies are read from, and what requests are written to.
    fn connect(&mut self, address: &Address) -> Result<(Self::Reader, Self::Writer), ConnectFault>
        ensures reader { IfOk result (λ ends. Self.Reader.place ends.0 ≡ address.now) }
        ensures writer { IfOk result (λ ends. Self.Writer.place ends.1 ≡ address.now) }
        ensures ok { OnOk result (failures self.new ≡ failures self.old) }
        ensures fault { IfErr result (λ fault. Misses fault (failures self.old) (failures self.new)) };
}

/// Why there is no connection.
#[derive(Clone, Copy, PartialEq, Eq, Debug, thiserror::Error)]
pub enum ConnectFault {
    /// The node could not be reached.
    #[error("not reached")]
    NotReached,
    /// Memory was refused.
    #[error("out of memory")]
    Memory,
}

impl From<AllocError> for ConnectFault {
    ghost use Rattle.std.specs.Prelude.{◌≡◌};
    ghost use Rattle.smart_client.specs.declared.connect.ConnectFault.TheVariants.{Memory};

    ghost from_gives = { λ _ fault. fault ≡ Memory };

    fn from(_refused: AllocError) -> ConnectFault {
        ConnectFault::Memory
    }
}
