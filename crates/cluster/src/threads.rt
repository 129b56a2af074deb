//! The threads of the nodes of a cluster.

use crate::accepting::accept_clients;
use crate::clock::pass_time;
use crate::linked::Linked;
use crate::server::{RunFault, Times};
use crate::telling::{Telling, tell_status};
use client_loops::Inbox;
use cluster_controls::{Incident, Orders, Runtime, Shortage};
use node_cell::{Admission, Asks, HasLinks};
use shared_node::{SharedCluster, carry};
use std::alloc::{AllocError, Global};
use std::sync::Arc;
use std::thread;
use std::thread::JoinHandle;

/// What the threads of a cluster are started with, and those that were started.
pub(crate) struct Starting<'a, C: HasLinks<R>, R: Runtime> {
    pub(crate) rt: R,
    pub(crate) alloc: Global,
    pub(crate) cluster: &'a Arc<SharedCluster<C>, Global>,
    pub(crate) orders: &'a Arc<Orders, Global>,
    pub(crate) admission: &'a Arc<Admission<C::Cluster>, Global>,
    pub(crate) times: Times<'a>,
    /// They are to be joined.
    pub(crate) started: Vec<JoinHandle<()>>,
}

impl<C: HasLinks<R> + Drop, R: Runtime + Drop> Drop for Starting<'_, C, R> {
    fn drop(self) {
        let Starting {
            rt: _,
            alloc: _,
            cluster: _,
            orders: _,
            admission: _,
            times: _,
            started: _,
        } = self;
    }
}

impl<C: HasLinks<R> + Drop, R: Runtime + Drop> Starting<'_, C, R> {
    /// The threads that were started.
    pub(crate) fn into_started(self) -> Vec<JoinHandle<()>> {
        let Starting {
            rt: _,
            alloc: _,
            cluster: _,
            orders: _,
            admission: _,
            times: _,
            started,
        } = self;
        started
    }
}

impl<'a, C: Linked<R>, R: Runtime> Starting<'a, C, R>
where
    C::Cluster: Send + Sync + 'static,
{
    /// Starts the threads of all nodes, and the one that tells how the nodes are, if somebody wants to know.
    pub(crate) fn start_all(&mut self) -> Result<(), RunFault> {
        for number in 0..self.cluster.nodes.len() {
            self.start_node(number)?;
        }
        match self.times.telling() {
            Telling::Never => Ok(()),
            Telling::WhenAsked | Telling::Every(_) => Ok(self.start_telling()?),
        }
    }

    // Starts the threads of the node of that number. The witness sees it if one isn't started.
    fn start_node(&mut self, number: usize) -> Result<(), RunFault> {
        match self.start_each(number) {
            Ok(()) => Ok(()),
            Err(shortage) => {
                let unstarted = Incident::ThreadNotStarted {
                    node: number,
                    shortage,
                };
                self.cluster.witness().see(&self.rt, unstarted);
                Err(RunFault::from(shortage))
            }
        }
    }

    fn start_each(&mut self, number: usize) -> Result<(), Shortage> {
        self.start_clock(number)?;
        let inboxes = self.start_loops(number)?;
        self.start_accepting(number, inboxes)?;
        self.start_carrying(number)
    }

    /// Adds a thread to those that were started, if it was.
    pub(crate) fn add(&mut self, thread: Result<JoinHandle<()>, Shortage>) -> Result<(), Shortage> {
        self.started.push(thread?).map_err(AllocError::from)?;
        Ok(())
    }

    // Starts the thread that tells how the nodes are.
    fn start_telling(&mut self) -> Result<(), Shortage> {
        let (rt, tick, telling) = (self.rt, self.times.tick(), self.times.telling());
        let cluster = Arc::try_clone(self.cluster)?;
        let orders = Arc::try_clone(self.orders)?;
        let thread = thread::spawn(&rt, move || {
            tell_status(&rt, &*cluster, &*orders, tick, telling);
        });
        self.add(thread.map_err(|_| Shortage::Thread))
    }

    // Starts the thread that lets the time of the node of that number pass. Once all ticks are counted, the cluster ends.
    fn start_clock(&mut self, number: usize) -> Result<(), Shortage> {
        let (rt, timing) = (self.rt, self.times.of(number));
        let cluster = Arc::try_clone(self.cluster)?;
        let orders = Arc::try_clone(self.orders)?;
        let admission = Arc::try_clone(self.admission)?;
        let thread = thread::spawn(&rt, move || {
            pass_time(rt, &*cluster, &*orders, number, admission.begin(), timing);
            cluster.stop.end();
        });
        self.add(thread.map_err(|_| Shortage::Thread))
    }

    // Starts the thread that accepts the clients of the node of that number.
    fn start_accepting(
        &mut self,
        number: usize,
        inboxes: Vec<Arc<Inbox<Asks<C::Cluster>>, Global>>,
    ) -> Result<(), Shortage> {
        let (rt, alloc) = (self.rt, self.alloc);
        let cluster = Arc::try_clone(self.cluster)?;
        let admission = Arc::try_clone(self.admission)?;
        let thread = thread::spawn(&rt, move || {
            accept_clients(rt, alloc, &cluster, &*admission, number, inboxes.as_slice());
        });
        self.add(thread.map_err(|_| Shortage::Thread))
    }

    // Starts the thread that carries the messages of the node of that number.
    fn start_carrying(&mut self, number: usize) -> Result<(), Shortage> {
        let (rt, alloc) = (self.rt, self.alloc);
        let cluster = Arc::try_clone(self.cluster)?;
        let thread = thread::spawn(&rt, move || carry(&rt, alloc, &*cluster, number));
        self.add(thread.map_err(|_| Shortage::Thread))
    }
}
