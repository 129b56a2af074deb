//! A cluster that is served.

ghost use Rattle.std.specs.Prelude.{◌≡◌};

use crate::node::Node;
use cluster_controls::{Clients, Stop, Witness};
use node_cell::HoldsCell;
use std::alloc::Global;
use std::sync::Arc;

/// A cluster that is served, as all of its threads share it.
pub struct SharedCluster<C: HoldsCell> {
    /// The nodes, by their numbers.
    pub nodes: Vec<Node<C>>,
    /// Who is connected to them.
    pub clients: Arc<Clients, Global>,
    /// Whether the cluster ends.
    pub stop: Stop,
}

impl<C: HoldsCell + Drop> Drop for SharedCluster<C> {
    fn drop(self) {
        let SharedCluster {
            nodes: _,
            clients: _,
            stop: _,
        } = self;
    }
}

impl<C: HoldsCell + Drop> SharedCluster<C> {
    /// The nodes, once the cluster isn't served.
    pub fn into_nodes(self) -> Vec<Node<C>>
        ensures { result ≡ self.nodes }
    {
        let SharedCluster {
            nodes,
            clients: _,
            stop: _,
        } = self;
        nodes
    }
}

impl<C: HoldsCell> SharedCluster<C> {
    /// The node of that number, if there is one.
    pub fn node(&self, number: usize) -> Option<&Node<C>> {
        self.nodes.get(number)
    }

    /// It sees what happens to the cluster.
    pub fn witness(&self) -> &Witness {
        &*self.clients.witness
    }
}
