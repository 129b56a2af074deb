//! Why a run could not go on.
ghost use Rattle.std.specs.Prelude.{◌≡◌};
ghost use Rattle.resharder.specs.Faults.{code_of};
ghost use Rattle.resharder.specs.declared.fault.ReshardFault.TheVariants.{Memory};

use std::alloc::AllocError;

/// Why a run could not go on. Whatever it asked for before may be asked for again, by a run that begins anew.
#[derive(Clone, Copy, PartialEq, Eq, Debug, thiserror::Error)]
pub enum ReshardFault {
    /// A node still asked for a repetition when there had been as many as the plan allows.
    #[error("asked again too often")]
    TooOften,
    /// A node can't be reached, or the connection to it failed.
    #[error("a node can't be reached")]
    NotReached,
    /// No master has the id of the plan.
    #[error("no master has this id")]
    NotListed,
    /// A reply is an error, or none that a node gives there.
    #[error("a reply by which the run can't go on")]
    BadReply,
    /// A node took part in a move of the slot with the last number that there is.
    #[error("no next number of a move")]
    NoNextNumber,
    /// Memory was refused.
    #[error("out of memory")]
    Memory,
}

impl ReshardFault {
    /// The code that a program prints.
    pub fn code(self) -> &'static str
        ensures { result.now ≡ code_of self }
    {
        match self {
            ReshardFault::TooOften => "V1",
            ReshardFault::NotReached | ReshardFault::NotListed => "V2",
            ReshardFault::BadReply | ReshardFault::NoNextNumber => "V3",
            ReshardFault::Memory => "F3",
        }
    }
}

impl From<AllocError> for ReshardFault {
    ghost from_gives = { λ _ fault. fault ≡ Memory };

    fn from(_: AllocError) -> ReshardFault {
        ReshardFault::Memory
    }
}
