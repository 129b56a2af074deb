//! What is done to a world.

use resp_values::Words;

/// A step of a world. Nodes are numbered from 0 on, messages from 1 on, in the order in which they are sent. A client begins with
/// its first call, at the node with the number 0.
#[derive(Drop)]
pub enum Step {
    /// A client begins a call, if none of its calls is under way. A connection is made in the step that needs it.
    Call {
        /// The client.
        client: u64,
        /// The words of the command.
        words: Words,
    },
    /// What a client sent reaches its node, which makes a step for it.
    Carry {
        /// The client.
        client: u64,
    },
    /// The reply that waits reaches a client, which acts.
    Return {
        /// The client.
        client: u64,
    },
    /// A client's connection that is in use breaks. A reply that waits is lost, and the node finds the connection closed at once.
    /// A request that is under way stays so, for [`Step::Late`].
    Cut {
        /// The client.
        client: u64,
    },
    /// The oldest request that cuts of a client left under way reaches its node. Its reply is lost, and the node finds the
    /// connection closed.
    Late {
        /// The client.
        client: u64,
    },
    /// Someone asks this of a node, on a connection of its own. Only CLUSTER and MIGRATE are asked so.
    Admin {
        /// The node.
        node: u64,
        /// The request.
        words: Words,
    },
    /// Time passes at a node.
    Tick {
        /// The node.
        node: u64,
    },
    /// A node stops for good: its connections break, and what waits there, or is under way to it, is lost.
    Stop {
        /// The node.
        node: u64,
    },
    /// A message reaches the node that it is for, now, again or for the first time.
    Deliver {
        /// The message.
        message: u64,
    },
}
