//! What a journal records of the outputs of a step.
ghost use Rattle.std.specs.Prelude.{◌≡◌, IfOk, IsOk};
ghost use Rattle.node_step.specs.Plain.{IsPlain};

use crate::outputs::Outputs;
use std::alloc::AllocError;

/// What records the outputs of a step, beside those that go to the sender of its event.
///
/// The record is made before the state of the node changes, so that nothing can fail after that.
pub trait Recorder {
    type Record: Drop;

    ghost use Rattle.node_step.specs.declared.outputs.Outputs.{Outputs as NodeOutputs};

    ghost recorded: { Self.Record → NodeOutputs };

    /// A record of these outputs. It fails only where they hold a reply, a message or a promotion.
    fn record(outputs: &Outputs) -> Result<Self::Record, AllocError>
        ensures recorded { IfOk result (λ made. recorded made ≡ outputs.now) }
        ensures plain { IsPlain outputs.now → IsOk result };
}
