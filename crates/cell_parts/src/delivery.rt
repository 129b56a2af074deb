//! Why a message isn't delivered.
ghost use Rattle.std.specs.Prelude.{◌≡◌};
ghost use Rattle.step_fault.specs.declared.fault.StepFault.TheVariants.{Memory};
ghost use Rattle.cell_parts.specs.declared.delivery.DeliveryFault.TheVariants.{Refused};

use std::alloc::AllocError;
use step_fault::StepFault;
use thiserror::Error;

/// Why a message isn't delivered. The node is as before.
#[derive(Clone, Copy, PartialEq, Eq, Debug, Error)]
pub enum DeliveryFault {
    /// The step was refused, as one for any other event may be.
    #[error(transparent)]
    Refused(StepFault),
    /// The ticket that was drawn isn't greater than that of the step that sent the message.
    #[error("the message is not older than its delivery")]
    Early,
}

impl From<AllocError> for DeliveryFault {
    ghost from_gives = { λ _ fault. fault ≡ Refused Memory };

    fn from(error: AllocError) -> DeliveryFault {
        DeliveryFault::Refused(StepFault::from(error))
    }
}
