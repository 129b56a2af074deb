//! What the program tells of why it stops.

use crate::fault::ProgramFault;
use audit_fault::AuditFault;
use inputs::InputFailure;
use std::alloc::AllocError;
use std::fmt;
use tool_io::ToolFailure;

/// Why the program stops: the fault, and a sentence that says what is wrong and where.
pub struct Failure {
    /// The fault.
    pub fault: ProgramFault,
    // What is wrong and where, or None where the fault says enough, or where there was no memory for more.
    detail: Option<String>,
}

impl Drop for Failure {
    fn drop(self) {
        let Failure {
            fault: _,
            detail: _,
        } = self;
    }
}

impl Failure {
    /// The fault, with what is wrong and where.
    pub fn new(fault: ProgramFault, detail: Result<String, AllocError>) -> Failure {
        Failure {
            fault,
            detail: detail.ok(),
        }
    }
}

impl fmt::Display for Failure {
    fn fmt<W: fmt::Write>(&self, f: &mut fmt::Formatter<W>) -> fmt::Result {
        match &self.detail {
            Some(detail) => write!(f, "rcluster: {detail} (")?,
            None => write!(f, "rcluster: {} (", self.fault.meaning())?,
        }
        self.fault.write_code(f)?;
        write!(f, ")")
    }
}

impl From<ProgramFault> for Failure {
    fn from(fault: ProgramFault) -> Failure {
        Failure {
            fault,
            detail: None,
        }
    }
}

impl From<AllocError> for Failure {
    fn from(_refused: AllocError) -> Failure {
        Failure::from(ProgramFault::Memory)
    }
}

impl From<AuditFault> for Failure {
    fn from(fault: AuditFault) -> Failure {
        Failure::from(ProgramFault::Audit(fault))
    }
}

impl From<InputFailure> for Failure {
    fn from(failure: InputFailure) -> Failure {
        Failure {
            fault: ProgramFault::from(failure.fault),
            detail: failure.into_detail(),
        }
    }
}

impl From<ToolFailure> for Failure {
    fn from(failure: ToolFailure) -> Failure {
        Failure {
            fault: ProgramFault::from(failure.fault),
            detail: failure.into_detail(),
        }
    }
}
