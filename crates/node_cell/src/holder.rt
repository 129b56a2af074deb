//! What conversations ask, behind the lock of their node.
ghost use Rattle.std.specs.Prelude.{◌≡◌, ◌<◌, ◌==◌, ◌++◌, ◌∷◌, [], length, not, Some, IfOk, IfErr, IfNone, IfSome};
ghost use Rattle.cell_parts.specs.Journal.{Enters, HasHistory, IsRefused, outcome_entered};
ghost use Rattle.node_cell.specs.Cells.{IsReplyGiven, without_reply};
ghost use Rattle.node_gate.specs.Asks.{IsOwn};
ghost use Rattle.node_gate.specs.Asks.Asked.{asking, waiting};
ghost use Rattle.node_step.specs.Released.{reply_to};

use crate::asks::Asks;
use crate::cell::NodeCell;
use crate::entered::Entered;
use cell_parts::{Deployment, Log};
use node_core::{Conn, Core, Event, StepFault};
use resp_values::Reply;

/// A node's cell, or what holds one. Clauses see the cell.
pub trait HoldsCell {
    ghost use Rattle.cell_parts.specs.Journal.{CellView};

    /// The cluster of the node.
    type Cluster: Deployment;

    ghost cell: { Self → CellView };

    /// Has the node make its step for an event that is no message, as [`Asks::ask_node`] has it made.
    fn ask(
        &mut self,
        asks: &mut Asks<Self::Cluster>,
        event: Event,
    ) -> Result<Entered<Self::Cluster>, StepFault>
        requires own { IsOwn event }
        ensures asked { asks.new ≡ asks.old ++ asking event (outcome_entered result) ∷ [] }
        ensures cluster { (cell self.old).config ≡ Self.Cluster.config }
        ensures number { (cell self.old).node < length (cell self.old).config.nodes }
        ensures history { HasHistory (cell self.old) }
        ensures ok { IfOk result (λ entered. Enters (cell self.old) event entered (cell self.new)) }
        ensures err { IfErr result
            (λ fault. IsRefused (cell self.old) event fault (cell self.new)) };

    /// Takes the first reply that waits for the connection, as [`Asks::take_reply`] takes it.
    fn take_reply(&mut self, asks: &mut Asks<Self::Cluster>, conn: Conn) -> Option<Reply>
        ensures came { IfSome result
            (λ reply. asks.new ≡ asks.old ++ waiting conn (Some reply) ∷ []) }
        ensures none { IfNone result (asks.new ≡ asks.old) }
        ensures cluster { (cell self.old).config ≡ Self.Cluster.config }
        ensures number { (cell self.old).node < length (cell self.old).config.nodes }
        ensures history { HasHistory (cell self.old) }
        ensures given { IfSome result (IsReplyGiven (cell self.old).journal conn) }
        ensures reply { result ≡ reply_to conn (cell self.old).undelivered }
        ensures left { cell self.new ≡ without_reply conn (cell self.old) };

    /// The node as its last step left it.
    fn core(&self) -> &Core
        ensures { result.now ≡ (cell self.now).state };

    /// Whether there are replies that nobody has taken yet.
    fn has_undelivered(&self) -> bool
        ensures { result ≡ not (length (cell self.now).undelivered == 0) };

    /// Whether messages were sent that nobody has taken yet.
    fn has_sent(&self) -> bool
        ensures { result ≡ not (length (cell self.now).outbox == 0) };
}

impl<K: Deployment, L: Log> HoldsCell for NodeCell<K, L> {
    type Cluster = K;

    ghost cell = { λ cell. cell };

    fn ask(&mut self, asks: &mut Asks<K>, event: Event) -> Result<Entered<K>, StepFault> {
        asks.ask_node(self, event)
    }

    fn take_reply(&mut self, asks: &mut Asks<K>, conn: Conn) -> Option<Reply> {
        asks.take_reply(self, conn)
    }

    fn core(&self) -> &Core {
        NodeCell::core(self)
    }

    fn has_undelivered(&self) -> bool {
        NodeCell::has_undelivered(self)
    }

    fn has_sent(&self) -> bool {
        NodeCell::has_sent(self)
    }
}
