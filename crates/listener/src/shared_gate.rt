//! A gate that the conversations of one thread share.
ghost use Rattle.std.specs.Prelude.{◌≡◌, ◌++◌, ◌∷◌, [], None, Some, IfSome};
ghost use Rattle.node_gate.specs.Asks.Asked.{waiting};

use connections::Conn;
use node_gate::NodeGate;
use resp2::Reply;

/// A node's gate that the conversations of one thread share. One of them has it at a time, and the node is kept from one to the next.
///
/// Clauses see what was asked by the conversation that has the gate.
pub trait SharedGate: NodeGate {
    /// What a conversation has asked, while another one has the gate.
    type Asks: Drop;

    ghost use Rattle.std.specs.Prelude.{List};
    ghost use Rattle.node_gate.specs.Asks.{Asked};

    ghost asked_by: { Self.Asks → List Asked };

    /// Changes places with the conversation that asked this: from now on that one has the gate, and the node with it.
    fn swap_asks(&mut self, asks: &mut Self::Asks)
        ensures comes { Self.asked self.new ≡ asked_by asks.old }
        ensures goes { asked_by asks.new ≡ Self.asked self.old };

    /// Takes the reply to the connection, whose last request was answered with [`Parked`](node_step::Response::Parked), if the node has
    /// it by now. The node is kept until others are let in.
    fn look(&mut self, conn: Conn) -> Option<Reply>
        ensures heard { IfSome result
            (λ reply. Self.asked self.new ≡ Self.asked self.old ++ waiting conn (Some reply) ∷ []) }
        ensures allowed { IfSome result (λ reply. Self.allowed (waiting conn (Some reply))) }
        ensures none { result ≡ None → Self.asked self.new ≡ Self.asked self.old };

    /// Lets others ask the node, if many steps were made since the last time.
    fn give_way(&mut self)
        ensures { Self.asked self.new ≡ Self.asked self.old };

    /// Lets others ask the node. What steps left is still to be sent.
    fn unlock(&mut self)
        ensures { Self.asked self.new ≡ Self.asked self.old };

    /// Lets others ask the node, and sends the messages that steps left, if there are some.
    fn send(&mut self)
        ensures { Self.asked self.new ≡ Self.asked self.old };

    /// Lets others ask the node, and carries the messages that steps left, until other nodes that aren't locked have answered them. Replies
    /// that have come by this are kept for those who look for them, and others are not told yet.
    fn carry(&mut self)
        ensures { Self.asked self.new ≡ Self.asked self.old };

    /// Tells other conversations of the replies that are kept for them, as long as this thread has the node, and lets them ask it.
    fn leave_to_others(&mut self)
        ensures { Self.asked self.new ≡ Self.asked self.old };

    /// Whether the node is closed: no reply will come any more.
    fn is_closed(&self) -> bool;
}
