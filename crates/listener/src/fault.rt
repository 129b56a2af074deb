//! Why a conversation ended early.
use node_step::StepFault;
use thiserror::Error;

/// Why a conversation ended before its client ended it.
#[derive(Clone, Copy, PartialEq, Eq, Debug, Error)]
pub enum ConnFault {
    /// The reader failed. All requests that came were answered, and nothing was written after that.
    #[error("reading from the client failed")]
    Reader,
    /// The writer failed. Of the replies, and of the line that ends them, a beginning was written.
    #[error("writing to the client failed")]
    Writer,
    /// Memory was refused. The client was told, and the request that had come to its turn wasn't executed.
    #[error("out of memory")]
    Memory,
    /// A number that only grows has reached its end. The client was told, and the request wasn't executed.
    #[error("no next number")]
    Exhausted,
    /// The node gave no reply to a request, or no connection.
    #[error("no reply")]
    Unanswered,
    /// The client sent more than can be counted: at least 2^64 - 1 bytes.
    #[error("too many reads")]
    Endless,
}

impl From<StepFault> for ConnFault {
    ghost use Rattle.std.specs.Prelude.{◌≡◌};
    ghost use Rattle.listener.specs.Conversation.{fault_of};

    ghost from_gives = { λ refused fault. fault ≡ fault_of refused };

    fn from(refused: StepFault) -> ConnFault {
        match refused {
            StepFault::Memory => ConnFault::Memory,
            StepFault::Exhausted => ConnFault::Exhausted,
        }
    }
}
