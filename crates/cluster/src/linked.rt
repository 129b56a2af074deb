//! What threads serve: a node's cell with its links.

use node_cell::HasLinks;
use std::sync::Wait;

/// A node's cell with its links with all nodes, which any thread may have.
///
/// Whatever has these is one.
pub trait Linked<R: Wait>: HasLinks<R> + Drop + Send + 'static {}

impl<C, R: Wait> Linked<R> for C
where
    C: HasLinks<R> + Drop + Send + 'static,
{}
