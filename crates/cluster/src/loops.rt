//! The threads of a node that serve its clients in turn.

use crate::in_turn::serve_in_turn;
use crate::linked::Linked;
use crate::threads::Starting;
use client_loops::{Inbox, Poller, PollerFault};
use cluster_controls::{Runtime, Shortage};
use mio::Waker;
use node_cell::{Admission, Asks, HoldsCell};
use shared_node::{Node, SharedCluster};
use std::alloc::{AllocError, Global};
use std::sync::Arc;
use std::thread;
use std::thread::JoinHandle;

impl<'a, C: Linked<R>, R: Runtime> Starting<'a, C, R>
where
    C::Cluster: Send + Sync + 'static,
{
    /// Starts the threads that serve the clients of the node of that number in turn, if there are to be some, and gives their inboxes.
    pub(crate) fn start_loops(
        &mut self,
        number: usize,
    ) -> Result<Vec<Arc<Inbox<Asks<C::Cluster>>, Global>>, Shortage> {
        let (rt, alloc, count) = (self.rt, self.alloc, self.times.loops());
        let pollers = pollers_of(rt, alloc, self.cluster.node(number), count)?;
        let mut inboxes = Vec::with_capacity(alloc, count)?;
        for poller in pollers {
            let inbox = Arc::new(alloc, Inbox::new(alloc)).map_err(AllocError::from)?;
            let (cluster, admission) = (self.cluster, self.admission);
            self.add(start_loop(rt, alloc, cluster, admission, number, &inbox, poller))?;
            inboxes.push(inbox).map_err(AllocError::from)?;
        }
        Ok(inboxes)
    }
}

// The pollers of this many threads. The node has what wakes the threads before the first is started.
fn pollers_of<C: HoldsCell + Drop, R: Runtime>(
    rt: R,
    alloc: Global,
    node: Option<&Node<C>>,
    count: usize,
) -> Result<Vec<Poller>, Shortage> {
    let mut pollers = Vec::with_capacity(alloc, count)?;
    match add_pollers(&rt, alloc, node, count, &mut pollers) {
        Ok(()) => Ok(pollers),
        Err(fault) => Err(shortage_of(fault)),
    }
}

fn add_pollers<C: HoldsCell + Drop, R: Runtime>(
    rt: &R,
    alloc: Global,
    node: Option<&Node<C>>,
    count: usize,
    pollers: &mut Vec<Poller>,
) -> Result<(), PollerFault> {
    for _ in 0..count {
        let poller = Poller::new(rt, alloc)?;
        pollers.push(poller).map_err(AllocError::from)?;
    }
    let wakers = wakers_of(alloc, pollers.as_slice())?;
    if let Some(node) = node {
        node.shared.set_wakers(rt, wakers);
    }
    Ok(())
}

fn wakers_of(alloc: Global, pollers: &[Poller]) -> Result<Vec<Waker>, PollerFault> {
    let mut wakers = Vec::with_capacity(alloc, pollers.len())?;
    for poller in pollers {
        wakers.push(poller.waker()?).map_err(AllocError::from)?;
    }
    Ok(wakers)
}

// Without a poller there is no thread.
fn shortage_of(fault: PollerFault) -> Shortage {
    match fault {
        PollerFault::Memory => Shortage::Memory,
        PollerFault::Descriptor => Shortage::Descriptor,
    }
}

// Starts a thread that serves clients of the node of that number in turn.
fn start_loop<C: Linked<R>, R: Runtime>(
    rt: R,
    alloc: Global,
    cluster: &Arc<SharedCluster<C>, Global>,
    admission: &Arc<Admission<C::Cluster>, Global>,
    number: usize,
    inbox: &Arc<Inbox<Asks<C::Cluster>>, Global>,
    poller: Poller,
) -> Result<JoinHandle<()>, Shortage>
where
    C::Cluster: Send + Sync + 'static,
{
    let cluster = Arc::try_clone(cluster)?;
    let admission = Arc::try_clone(admission)?;
    let inbox = Arc::try_clone(inbox)?;
    let started = thread::spawn(&rt, move || {
        serve_in_turn(
            rt,
            alloc,
            &*cluster,
            number,
            admission.begin(),
            &*inbox,
            poller,
        );
    });
    started.map_err(|_| Shortage::Thread)
}
