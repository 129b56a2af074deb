//! How a node is, for whoever runs the cluster.

use std::net::SocketAddr;

/// How a node is. Nodes are named by their numbers.
#[derive(Clone, Copy, PartialEq, Eq, Debug)]
pub struct NodeStatus {
    pub node: usize,
    /// Where its clients connect, if the system tells it.
    pub address: Option<SocketAddr>,
    /// It is stopped, and this is how it was then.
    pub is_stopped: bool,
    /// Whom it copies, if it is a replica.
    pub master: Option<usize>,
    /// How many slots are its own.
    pub slots: usize,
    /// How many keys it holds.
    pub keys: usize,
    /// How many bytes its stream of writes has, or for a replica, how many of its master's it received.
    pub offset: u64,
    /// How many bytes of its stream the replica lacks that lacks most. It is None where nobody copies the node.
    pub behind: Option<u64>,
    /// How many clients are connected to it.
    pub clients: usize,
    /// How many steps it has made.
    pub steps: u64,
}
