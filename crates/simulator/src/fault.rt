//! Why a script isn't read, and why it isn't played to its end.
ghost use Rattle.std.specs.Prelude.{◌≡◌};
ghost use Rattle.simulator.specs.declared.fault.ScriptFault.TheVariants.{Memory};
ghost use Rattle.simulator.specs.declared.fault.SimulationFault.TheVariants as simulation;

use std::alloc::AllocError;
use std::io;
use thiserror::Error;

/// Why a script isn't read.
#[derive(Clone, Copy, PartialEq, Eq, Debug, Error)]
pub enum ScriptFault {
    /// Memory was refused.
    #[error("out of memory")]
    Memory,
    /// The line of this number, from 1 on, is no step, and all lines before it are steps.
    #[error("line {0} is no step")]
    Line(u64),
}

impl From<AllocError> for ScriptFault {
    ghost from_gives = { λ _ fault. fault ≡ Memory };

    fn from(_error: AllocError) -> ScriptFault {
        ScriptFault::Memory
    }
}

/// Why a script isn't played, or why not all that came out of it is written.
#[derive(Debug, Drop, Error)]
pub enum SimulationFault {
    /// Memory was refused, and nothing was written.
    #[error("out of memory")]
    Memory,
    /// The reader failed, and nothing was written.
    #[error("the script can't be read: {0}")]
    Unreadable(io::Error),
    /// The line of this number, from 1 on, is no step, and all lines before it are steps. Nothing was played.
    #[error("line {number} is no step")]
    Line {
        /// The line's number.
        number: u64,
        /// The whole script.
        text: Vec<u8>,
    },
    /// The writer failed. A beginning of what came out was written.
    #[error("the output can't be written: {0}")]
    Unwritten(io::Error),
}

impl From<AllocError> for SimulationFault {
    ghost from_gives = { λ _ fault. fault ≡ simulation.Memory };

    fn from(_error: AllocError) -> SimulationFault {
        SimulationFault::Memory
    }
}
