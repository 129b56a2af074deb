//! Why a step isn't made.
ghost use Rattle.std.specs.Prelude.{◌≡◌};
ghost use Rattle.step_fault.specs.declared.fault.StepFault.TheVariants.{Memory};

use std::alloc::AllocError;
use thiserror::Error;

/// Why a step isn't made, or a connection isn't opened. The node and its connections are as before.
#[derive(Clone, Copy, PartialEq, Eq, Debug, Error)]
pub enum StepFault {
    /// Memory was refused.
    #[error("out of memory")]
    Memory,
    /// A number that only grows has no next one: the number of a copy, an epoch, the generation of a connection, or a ticket.
    #[error("no next number")]
    Exhausted,
}

impl From<AllocError> for StepFault {
    ghost from_gives = { λ _ fault. fault ≡ Memory };

    fn from(_error: AllocError) -> StepFault {
        StepFault::Memory
    }
}
