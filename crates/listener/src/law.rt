//! What turns make together.
ghost use Rattle.listener.specs.InTurns.{TurnsMakeAConversation};

use node_gate::NodeGate;

/// Whichever turns of a conversation are taken, and in whatever order: the node is asked once for each whole request that was read, in their
/// order, and for nothing else; and what its client is sent, and then what waits for it, are the replies to just these, and at last the line
/// of what ended the conversation. Each outcome is one that the gate may give.
pub fn turns_make_a_conversation<G: NodeGate>()
    ensures { TurnsMakeAConversation G.allowed }
{}
