//! Why journals that are gathered aren't told to be a run.
ghost use Rattle.std.specs.Prelude.{◌≡◌};
ghost use Rattle.audit_fault.specs.declared.fault.AuditFault.TheVariants.{Memory};

use std::alloc::AllocError;

/// Why the journals of nodes aren't told to be a run.
#[derive(Clone, Copy, PartialEq, Eq, Debug)]
pub enum AuditFault {
    /// The cells aren't those of each node once, or a node took a message that nobody sent.
    Stranger,
    /// Memory was refused.
    Memory,
}

impl From<AllocError> for AuditFault {
    ghost from_gives = { λ _ fault. fault ≡ Memory };

    fn from(_refused: AllocError) -> AuditFault {
        AuditFault::Memory
    }
}
