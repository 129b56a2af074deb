//! Connections of clients to nodes.

use connections::Conn;

/// A connection of a client to a node.
#[derive(Clone, Copy)]
pub struct Link {
    /// The node.
    pub node: u64,
    /// The connection there.
    pub conn: Conn,
}
