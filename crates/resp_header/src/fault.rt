//! Why a reader hands out no request.
ghost use Rattle.std.specs.Prelude.{◌≡◌};
ghost use Rattle.resp_header.specs.declared.fault.Fault.TheVariants.{Memory};

use std::alloc::AllocError;
use thiserror::Error;

/// What is wrong with the bytes that came, or that memory was refused.
#[derive(Clone, Copy, PartialEq, Eq, Debug, Error)]
pub enum Fault {
    /// No request begins so: the peer doesn't speak the protocol.
    #[error("protocol error")]
    Protocol,
    /// A request has too many words, a word is too long, or a request has too many bytes.
    #[error("too long")]
    TooLong,
    /// Memory was refused: nothing changed, and the call can be made again.
    #[error("out of memory")]
    Memory,
}

impl From<AllocError> for Fault {
    ghost from_gives = { λ _ fault. fault ≡ Memory };

    fn from(_error: AllocError) -> Fault {
        Fault::Memory
    }
}
