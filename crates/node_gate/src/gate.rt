//! How the threads of connections reach a node.
ghost use Rattle.std.specs.Prelude.{◌≡◌, ◌++◌, ◌∷◌, [], IfOk};
ghost use Rattle.node_gate.specs.Asks.{outcome_of, IsOwn};
ghost use Rattle.node_gate.specs.Asks.Asked.{asking, waiting};

use connections::Conn;
use node_step::{Event, Response, StepFault};
use resp_values::Reply;

/// A step that was made, as the one who asked for it sees it.
pub trait Answered {
    ghost use Rattle.node_step.specs.declared.event.Event.{Event as NodeEvent};
    ghost use Rattle.node_step.specs.declared.outputs.Outputs.{Outputs as NodeOutputs};

    ghost event: { Self → NodeEvent };

    ghost gave: { Self → NodeOutputs };

    /// What the sender of the event gets back.
    fn response(&self) -> &Response
        ensures { result.now ≡ (gave self.now).response };
}

/// One conversation's way to a node that several of them may ask.
///
/// Clauses see all that was asked through it; the program keeps nothing of that.
pub trait NodeGate {
    type Answer: Answered + Drop;

    ghost use Rattle.std.specs.Prelude.{List};
    ghost use Rattle.node_gate.specs.Asks.{Asked};

    ghost asked: { Self → List Asked };

    ghost allowed: { Asked → Type 0 };

    /// Makes the node's step for an event that is no message: the answer is for this event, and one that the node may give.
    ///
    /// Memory and Exhausted leave the node as it was, and come where the node may refuse the event so.
    fn step(&mut self, event: Event) -> Result<Self::Answer, StepFault>
        requires own { IsOwn event }
        ensures asked { asked self.new
            ≡ asked self.old ++ asking event (outcome_of Self.Answer.gave result) ∷ [] }
        ensures event { IfOk result (λ answer. Self.Answer.event answer ≡ event) }
        ensures allowed { allowed (asking event (outcome_of Self.Answer.gave result)) };

    /// Waits for the reply to the connection, whose last request was answered with [`Parked`](Response::Parked): a reply that the
    /// node may give to it, or None where none will come. Others may ask the node meanwhile.
    fn wait(&mut self, conn: Conn) -> Option<Reply>
        ensures asked { asked self.new ≡ asked self.old ++ waiting conn result ∷ [] }
        ensures allowed { allowed (waiting conn result) };

    /// Lets others ask the node. A step may keep them waiting until then, so it is called before anything is waited for.
    fn release(&mut self)
        ensures { asked self.new ≡ asked self.old };
}
