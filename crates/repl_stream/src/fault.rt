//! Why a stream, or what stands on it, refuses.
ghost use Rattle.std.specs.Prelude.{◌≡◌};
ghost use Rattle.repl_stream.specs.declared.fault.AppendFault.TheVariants.{Memory as AppendMemory};
ghost use Rattle.repl_stream.specs.declared.fault.OfferFault.TheVariants.{Memory as OfferMemory};
ghost use Rattle.repl_stream.specs.declared.fault.StreamFault.TheVariants.{Memory as StreamMemory};

use std::alloc::AllocError;
use thiserror::Error;

/// Why a stream has no such piece. It is as before.
#[derive(Clone, Copy, PartialEq, Eq, Debug, Error)]
pub enum StreamFault {
    /// Memory was refused.
    #[error("out of memory")]
    Memory,
    /// The bytes there are no longer kept: who wants them has to ask for a snapshot.
    #[error("bytes are no longer kept")]
    TooOld,
}

impl From<AllocError> for StreamFault {
    ghost from_gives = { λ _ fault. fault ≡ StreamMemory };

    fn from(_error: AllocError) -> StreamFault {
        StreamFault::Memory
    }
}

/// Why a replica doesn't take a piece. It is as before.
#[derive(Clone, Copy, PartialEq, Eq, Debug, Error)]
pub enum OfferFault {
    /// The piece begins past what the replica has received.
    #[error("bytes before the piece are missing")]
    Gap,
    /// What the replica has received isn't the beginning of the piece's stream.
    #[error("piece of another stream")]
    OtherStream,
    /// Memory was refused.
    #[error("out of memory")]
    Memory,
}

impl From<AllocError> for OfferFault {
    ghost from_gives = { λ _ fault. fault ≡ OfferMemory };

    fn from(_error: AllocError) -> OfferFault {
        OfferFault::Memory
    }
}

/// Why there is no room for more bytes. The stream is as before.
#[derive(Clone, Copy, PartialEq, Eq, Debug, Error)]
pub enum AppendFault {
    /// The bytes would end past the greatest offset.
    #[error("no next offset")]
    Exhausted,
    /// Memory was refused.
    #[error("out of memory")]
    Memory,
}

impl From<AllocError> for AppendFault {
    ghost from_gives = { λ _ fault. fault ≡ AppendMemory };

    fn from(_error: AllocError) -> AppendFault {
        AppendFault::Memory
    }
}
