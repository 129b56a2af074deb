//! All nodes of a cluster, run at once.
ghost use Rattle.std.specs.Prelude.{◌≡◌, IfOk, vec_len};

use crate::clock::Timing;
use crate::linked::Linked;
use crate::telling::Telling;
use crate::threads::Starting;
use cluster_controls::{Clients, NodeStop, Orders, Runtime, Shortage, Stop, Witness, most_ticks};
use node_cell::{Admission, HasLinks, HoldsCell};
use shared_node::{Node, SharedCluster};
use std::alloc::{AllocError, Global};
use std::sync::Arc;
use std::thread::JoinHandle;
use std::time::Duration;

/// Why the nodes of a cluster can't be run, or aren't given back.
#[derive(Clone, Copy, PartialEq, Eq, Debug)]
pub enum RunFault {
    /// Memory was refused.
    Memory,
    /// A thread of a node can't be started, or hasn't ended.
    Thread,
}

// Of what there was none as a thread was to be started.
impl From<Shortage> for RunFault {
    fn from(shortage: Shortage) -> RunFault {
        match shortage {
            Shortage::Memory => RunFault::Memory,
            Shortage::Thread | Shortage::Descriptor => RunFault::Thread,
        }
    }
}

impl From<AllocError> for RunFault {
    fn from(_refused: AllocError) -> RunFault {
        RunFault::Memory
    }
}

/// How long a cluster is served, and how.
#[derive(Clone, Copy)]
pub struct Course<'a> {
    /// After how many ticks of its first node it ends, or None where it goes on for ever.
    pub ticks: Option<u64>,
    /// Which of its nodes are stopped meanwhile.
    pub stops: &'a [NodeStop],
    /// How many threads of each node serve all of its clients in turn, or None where each client has a thread of its own.
    pub loops: Option<usize>,
    /// When it is told how its nodes are.
    pub telling: Telling,
}

/// What whoever runs a cluster sees of it, and orders.
pub struct Overseer {
    /// It sees which clients can't be served, which thread can't be started, and what else happens.
    pub witness: Arc<Witness, Global>,
    /// What is ordered meanwhile.
    pub orders: Arc<Orders, Global>,
}

impl Drop for Overseer {
    fn drop(self) {
        let Overseer {
            witness: _,
            orders: _,
        } = self;
    }
}

/// The ticks of the nodes, and how their clients are served.
#[derive(Clone, Copy)]
pub struct Times<'a> {
    /// How long a tick takes.
    pub interval: Duration,
    /// How long the cluster is served, and how.
    pub course: Course<'a>,
}

impl Times<'_> {
    /// Those of the node of that number.
    pub(crate) fn of(&self, node: usize) -> Timing {
        let most = match self.course.ticks {
            Some(ticks) if node == 0 => ticks,
            _ => u64::MAX,
        };
        Timing {
            interval: self.interval,
            most,
            own: most_ticks(self.course.stops, node),
            has_threads: self.course.loops.is_none(),
        }
    }

    /// How long a tick takes.
    pub(crate) fn tick(&self) -> Duration {
        self.interval
    }

    /// When it is told how the nodes are.
    pub(crate) fn telling(&self) -> Telling {
        self.course.telling
    }

    /// How many threads of a node serve its clients in turn.
    pub(crate) fn loops(&self) -> usize {
        self.course.loops.unwrap_or(0)
    }
}

/// Runs the nodes until the end, and gives them back once all threads are done with them. By the admission their conversations and their clocks
/// begin to ask them. The overseer sees which clients can't be served, and which thread can't be started.
///
/// A node that has a stop, by the course or by an order, is stopped meanwhile: from then on it makes no tick, takes no message and sends none, its
/// connections are shut down, and whoever connects to it is refused. Steps that its clients asked for before, and those that close their
/// connections, may come behind that.
///
/// Each node has a thread that accepts clients, one that lets its time pass and one that carries its messages, and those that serve
/// its clients. One more thread tells how the nodes are, where that is wanted.
pub fn run_all<C: Linked<R>, R: Runtime>(
    rt: R,
    alloc: Global,
    nodes: Vec<Node<C>>,
    admission: &Arc<Admission<C::Cluster>, Global>,
    times: Times,
    overseer: &Overseer,
) -> Result<Vec<Node<C>>, RunFault>
where
    C::Cluster: Send + Sync + 'static,
    ensures { IfOk result (λ after. vec_len after ≡ vec_len nodes) }
{
    let count = nodes.len();
    let cluster = share(alloc, nodes, overseer)?;
    run(rt, alloc, &cluster, &overseer.orders, admission, times)?;
    match Arc::into_inner(cluster) {
        Some(cluster) if cluster.nodes.len() == count => Ok(cluster.into_nodes()),
        _ => Err(RunFault::Thread),
    }
}

// The nodes with what their threads share.
fn share<C: HoldsCell + Drop>(
    alloc: Global,
    nodes: Vec<Node<C>>,
    overseer: &Overseer,
) -> Result<Arc<SharedCluster<C>, Global>, AllocError> {
    let clients = Clients::new(alloc, nodes.len(), &overseer.witness)?;
    let clients = Arc::new(alloc, clients).map_err(AllocError::from)?;
    let cluster = SharedCluster {
        nodes,
        clients,
        stop: Stop::new(),
    };
    Arc::new(alloc, cluster).map_err(AllocError::from)
}

fn run<C: Linked<R>, R: Runtime>(
    rt: R,
    alloc: Global,
    cluster: &Arc<SharedCluster<C>, Global>,
    orders: &Arc<Orders, Global>,
    admission: &Arc<Admission<C::Cluster>, Global>,
    times: Times,
) -> Result<(), RunFault>
where
    C::Cluster: Send + Sync + 'static,
{
    let mut starting = Starting {
        rt,
        alloc,
        cluster,
        orders,
        admission,
        times,
        // Without those that serve clients in turn, a node has three threads.
        started: Vec::with_capacity(alloc, cluster.nodes.len().saturating_mul(3))?,
    };
    let outcome = starting.start_all();
    match outcome {
        Ok(()) => cluster.stop.wait(&rt),
        Err(_) => cluster.stop.end(),
    }
    end_all(&rt, cluster, starting.into_started());
    outcome
}

// Ends all connections and all threads.
fn end_all<C: HasLinks<R> + Drop, R: Runtime>(
    rt: &R,
    cluster: &SharedCluster<C>,
    threads: Vec<JoinHandle<()>>,
) {
    for node in cluster.nodes.iter() {
        node.shared.close(rt);
    }
    // Connections go first: where no more files can be opened, no thread that accepts can be woken before one is closed.
    cluster.clients.shut_down(rt);
    for node in cluster.nodes.iter() {
        node.wake(rt);
    }
    for thread in threads {
        thread.join(rt);
    }
}
