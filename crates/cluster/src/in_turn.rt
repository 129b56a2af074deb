//! Clients of a node that one thread serves in turn.

use client_loops::{Inbox, Poller, Register, serve_clients};
use cluster_controls::{Incident, Runtime, Shortage};
use node_cell::{Asks, HasLinks, HoldsCell};
use shared_node::{Mail, SeeingGate, SharedCluster};
use std::alloc::Global;

/// Serves clients of the node of that number, those that come to its inbox, until the node is closed and all of them have left. `asks` is what
/// was asked of the node for this: nothing yet.
pub(crate) fn serve_in_turn<C: HasLinks<R> + Drop, R: Runtime>(
    rt: R,
    alloc: Global,
    cluster: &SharedCluster<C>,
    number: usize,
    asks: Asks<C::Cluster>,
    inbox: &Inbox<Asks<C::Cluster>>,
    poller: Poller,
) {
    let Some(mut gate) = SeeingGate::new(rt, alloc, cluster, number, asks, Mail::IsSent) else {
        return;
    };
    let clients = NodeClients {
        rt,
        cluster,
        number,
    };
    serve_clients(&rt, alloc, &mut gate, &clients, inbox, poller);
}

// The clients of the node of that number.
#[derive(Drop)]
struct NodeClients<'a, C: HoldsCell, R: Runtime> {
    rt: R,
    cluster: &'a SharedCluster<C>,
    number: usize,
}

impl<'a, C: HoldsCell, R: Runtime> Register for NodeClients<'a, C, R> {
    fn note_left(&self, client: usize) {
        self.cluster.clients.remove(&self.rt, client);
    }

    fn note_refused(&self, client: usize) {
        self.cluster.clients.remove(&self.rt, client);
        let refused = Incident::ClientRefused {
            node: self.number,
            shortage: Shortage::Memory,
        };
        self.cluster.witness().see(&self.rt, refused);
    }
}
