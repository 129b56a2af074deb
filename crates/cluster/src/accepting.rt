//! Clients that are accepted at a node, each for a thread of its own or for one that serves many in turn.

use crate::linked::Linked;
use crate::one_client::serve_client;
use client_loops::{Inbox, InboxFault, NewClient};
use cluster_controls::{Incident, Refused, Runtime, Shortage};
use node_cell::{Admission, Asks, HasLinks};
use shared_node::{Node, SharedCluster};
use std::alloc::{AllocError, Global};
use std::net::TcpStream;
use std::sync::Arc;
use std::thread::Builder;
use std::time::Duration;

// How many milliseconds no client is accepted after one could not be, and no descriptor was kept back for that.
const PAUSE: u64 = 10;

// How many bytes of addresses the stack of a client's thread takes. It comes to use some 12 KiB of them. The system keeps a table of pages for
// each 2 MiB, so that threads with larger stacks would cost 4 KiB more each.
const STACK_SIZE: usize = 262_144;

/// Accepts the clients of the node of that number until it is closed. Each waits in one of the inboxes, in turn, or where there are none
/// is served by a thread of its own. By the admission each begins what it asks.
pub(crate) fn accept_clients<C: Linked<R>, R: Runtime>(
    rt: R,
    alloc: Global,
    cluster: &Arc<SharedCluster<C>, Global>,
    admission: &Admission<C::Cluster>,
    number: usize,
    inboxes: &[Arc<Inbox<Asks<C::Cluster>>, Global>],
)
where
    C::Cluster: Send + Sync + 'static,
{
    let Some(node) = cluster.node(number) else {
        return;
    };
    let mut entrance = Entrance {
        rt,
        alloc,
        cluster,
        admission,
        node,
        number,
        inboxes,
        turn: 0,
    };
    entrance.accept_all();
}

// Where the clients of a node come in.
struct Entrance<'a, C: HasLinks<R>, R: Runtime> {
    rt: R,
    alloc: Global,
    cluster: &'a Arc<SharedCluster<C>, Global>,
    admission: &'a Admission<C::Cluster>,
    node: &'a Node<C>,
    number: usize,
    inboxes: &'a [Arc<Inbox<Asks<C::Cluster>>, Global>],
    // The inbox in which the next client waits, if there are inboxes.
    turn: usize,
}

impl<C: HasLinks<R> + Drop, R: Runtime + Drop> Drop for Entrance<'_, C, R> {
    fn drop(self) {
        let Entrance {
            rt: _,
            alloc: _,
            cluster: _,
            admission: _,
            node: _,
            number: _,
            inboxes: _,
            turn: _,
        } = self;
    }
}

impl<'a, C: Linked<R>, R: Runtime> Entrance<'a, C, R>
where
    C::Cluster: Send + Sync + 'static,
{
    // Accepts clients until the node is closed.
    fn accept_all(&mut self) {
        let (rt, node, spares) = (self.rt, self.node, &self.cluster.clients.spares);
        // They are kept before the first client comes, as far as the system has them.
        let _all = spares.are_kept(&rt, &node.listener);
        for stream in node.listener.incoming() {
            if node.shared.is_closed() {
                return;
            }
            match stream {
                Ok(stream) => self.admit(stream),
                Err(_) if spares.give_one(&rt) => {}
                Err(_) => self.cluster.stop.sleep(&rt, Duration::from_millis(PAUSE)),
            }
        }
    }

    // Has a client served. One for which there is no memory, no thread or no descriptor is let go.
    fn admit(&mut self, stream: TcpStream) {
        let inbox = self.take_turn();
        match self.begin(stream, inbox) {
            Ok(()) => self.node.shared.wake(inbox),
            Err(Refused::Short(shortage)) => {
                let refused = Incident::ClientRefused {
                    node: self.number,
                    shortage,
                };
                self.cluster.witness().see(&self.rt, refused);
            }
            Err(Refused::Ended) => {}
        }
    }

    // The number of the inbox whose turn it is. Behind the last one comes the first.
    fn take_turn(&mut self) -> usize {
        let inbox = self.turn;
        self.turn = match inbox.saturating_add(1) {
            next if next < self.inboxes.len() => next,
            _ => 0,
        };
        inbox
    }

    // Has the client wait in the inbox of that number, or starts its thread where there are no inboxes. Where that fails its connection is
    // closed.
    fn begin(&self, stream: TcpStream, inbox: usize) -> Result<(), Refused> {
        let clients = &self.cluster.clients;
        if !clients.spares.are_kept(&self.rt, &self.node.listener) {
            return Err(Refused::Short(Shortage::Descriptor));
        }
        let stream = Arc::new(self.alloc, stream).map_err(AllocError::from)?;
        let client = clients.add(&self.rt, self.number, &stream)?;
        let new_client = NewClient {
            stream,
            number: client,
            asks: self.admission.begin(),
        };
        let begun = match self.inboxes.get(inbox) {
            Some(inbox) => inbox.put(&self.rt, new_client).map_err(refused_by),
            None => self.start(new_client),
        };
        if begun.is_err() {
            clients.remove(&self.rt, client);
        }
        begun
    }

    // Starts the thread of a client.
    fn start(&self, new_client: NewClient<Asks<C::Cluster>>) -> Result<(), Refused> {
        let NewClient {
            stream,
            number: client,
            asks,
        } = new_client;
        let (rt, alloc, number) = (self.rt, self.alloc, self.number);
        let clients = Arc::try_clone(&self.cluster.clients)?;
        let cluster = Arc::try_clone(self.cluster)?;
        let started = Builder::new().stack_size(STACK_SIZE).spawn(&rt, move || {
            serve_client(rt, alloc, cluster, number, asks, &*stream);
            clients.remove(&rt, client);
        });
        match started {
            Ok(_thread) => Ok(()),
            Err(_) => Err(Refused::Short(Shortage::Thread)),
        }
    }
}

// Why a client can't be served that can't wait in an inbox.
fn refused_by(fault: InboxFault) -> Refused {
    match fault {
        InboxFault::Memory => Refused::Short(Shortage::Memory),
        InboxFault::Closed => Refused::Ended,
    }
}
