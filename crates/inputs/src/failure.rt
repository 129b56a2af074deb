//! Why an input can't be taken.

use config_text::ConfigFault;
use std::alloc::AllocError;

/// Why an input can't be taken.
#[derive(Clone, Copy)]
pub enum InputFault {
    /// The file can't be read.
    Unreadable,
    /// It describes no cluster.
    Config(ConfigFault),
    /// The line of the script is no step. Lines are counted from 1.
    Script(u64),
    /// Memory was refused.
    Memory,
}

/// Why an input can't be taken: the fault, and a sentence that says what is wrong and where.
pub struct InputFailure {
    /// The fault.
    pub fault: InputFault,
    /// What is wrong and where, or None where the fault says enough, or where there was no memory for more.
    pub detail: Option<String>,
}

impl Drop for InputFailure {
    fn drop(self) {
        let InputFailure {
            fault: _,
            detail: _,
        } = self;
    }
}

impl InputFailure {
    /// The fault, with what is wrong and where.
    pub fn new(fault: InputFault, detail: Result<String, AllocError>) -> InputFailure {
        InputFailure {
            fault,
            detail: detail.ok(),
        }
    }

    /// What is wrong and where, if that is known.
    pub fn into_detail(self) -> Option<String> {
        let InputFailure { fault: _, detail } = self;
        detail
    }
}

impl From<AllocError> for InputFailure {
    fn from(_refused: AllocError) -> InputFailure {
        InputFailure {
            fault: InputFault::Memory,
            detail: None,
        }
    }
}
