//! `rcluster serve --log`: a line on standard error for each thing that happens to a cluster and that no client is told, for each slot that
//! arrives at a node or leaves it, for each master that hands its slots over and the replica that notes it, for each node that is
//! promoted or stopped, and for each message that a bad network loses, repeats or holds; and how the nodes are, at the beginning and when somebody
//! asks. Without a log there are only the answers to orders, where these are taken, and the advice for whoever runs the cluster.

use cluster_controls::{Heard, Hearing, Incident, NodeStatus, Shortage, Witness};
use link_ends::Act;
use program_fault::{Failure, ProgramFault};
use std::alloc::{AllocError, Global};
use std::rt::Clock;
use std::sync::{Arc, Wait};
use std::thread::{JoinHandle, Threads};
use std::{fmt, thread};

/// The log of a cluster that is served, or none where none is wanted. A thread of its own writes it, so that nobody else waits for
/// whoever reads it.
pub struct Logging {
    /// What happens is seen by it.
    pub witness: Arc<Witness, Global>,
    thread: Option<JoinHandle<()>>,
}

impl Drop for Logging {
    fn drop(self) {
        let Logging {
            witness: _,
            thread: _,
        } = self;
    }
}

impl Logging {
    /// Begins the log of what is wanted.
    pub fn begin<R>(rt: R, wanted: Option<Hearing>) -> Result<Logging, Failure>
    where
        R: AllocGlobal + Eprint + Clock + Threads + Wait + Copy + Drop + Send + Sync + 'static,
    {
        let alloc = rt.alloc();
        let Some(hearing) = wanted else {
            let witness = Arc::new(alloc, Witness::without_listener(alloc)).map_err(
                AllocError::from,
            )?;
            return Ok(Logging {
                witness,
                thread: None,
            });
        };
        let witness = Witness::with_listener(&rt, alloc, hearing)?;
        let witness = Arc::new(alloc, witness).map_err(AllocError::from)?;
        let thread = Some(start_writing(rt, &witness)?);
        Ok(Logging { witness, thread })
    }

    /// Ends the log, once all of it is written.
    pub fn end<R: Threads + Wait>(self, rt: &R) {
        let Logging { witness, thread } = self;
        witness.end(rt);
        if let Some(thread) = thread {
            thread.join(rt);
        }
    }
}

fn start_writing<R>(rt: R, witness: &Arc<Witness, Global>) -> Result<JoinHandle<()>, Failure>
where
    R: Eprint + Threads + Wait + Copy + Drop + Send + Sync + 'static,
{
    let witness = Arc::try_clone(witness)?;
    let started = thread::spawn(&rt, move || {
        write_all(&rt, &*witness);
    });
    started.map_err(|_| Failure::from(ProgramFault::Thread))
}

// Writes what is heard until the end. Where it can't be written, the cluster is served all the same.
fn write_all<R: Eprint + Wait>(rt: &R, witness: &Witness) {
    for _ in rt.forever() {
        let Some(heard) = witness.listen(rt) else {
            return;
        };
        let _told = eprintln!(rt; "rcluster: {}", Line(heard));
    }
}

// A line of the log, behind the name of the program.
#[derive(Clone, Copy)]
struct Line(Heard);

impl fmt::Display for Line {
    fn fmt<W: fmt::Write>(&self, f: &mut fmt::Formatter<W>) -> fmt::Result {
        let Heard { time, incident } = self.0;
        write!(f, "{}.{:03} ", time.as_secs(), time.subsec_millis())?;
        match incident {
            Incident::ClientRefused { node, shortage } => write!(
                f,
                "node {node}: a client isn't served, because {}",
                text_of(shortage)
            ),
            Incident::ThreadNotStarted { node, shortage } => write!(
                f,
                "node {node}: a thread isn't started, because {}",
                text_of(shortage)
            ),
            Incident::SlotArrived {
                node,
                slot,
                from,
                keys,
            } => write!(
                f,
                "node {node}: slot {slot} arrived from node {from}, keys: {keys}"
            ),
            Incident::SlotLeft {
                node,
                slot,
                to,
                deleted,
            } => write!(
                f,
                "node {node}: slot {slot} left for node {to}, keys deleted: {deleted}"
            ),
            Incident::HandoverBegun {
                node,
                replica,
                offset,
            } => write!(
                f,
                "node {node}: hands over to node {replica}, bytes of its stream: {offset}"
            ),
            Incident::HandoverNoted {
                node,
                master,
                offset,
                received,
            } => write!(
                f,
                "node {node}: noted that node {master} hands over, bytes of its stream: {offset}, received: {received}"
            ),
            Incident::Promoted {
                node,
                master,
                epoch,
                offset,
                is_planned,
            } => write!(
                f,
                "node {node}: promoted in place of node {master}{}, epoch: {epoch}, bytes of its stream: {offset}",
                how(is_planned)
            ),
            Incident::ActDone { node, from, act } => {
                write!(f, "node {node}: a message of node {from} ")?;
                write_act(f, act)
            }
            Incident::ClientsCrowd { node } => write!(
                f,
                "node {node}: its clients wait for each other, because each has a thread of its own; with --loops N it has N threads, which serve all clients in turn"
            ),
            Incident::Stopped { node } => write!(f, "node {node}: is stopped"),
            Incident::Status(status) => write_status(f, status),
            Incident::Missed(count) => write!(f, "lines that are missing before this one: {count}"),
        }
    }
}

fn write_act<W: fmt::Write>(f: &mut fmt::Formatter<W>, act: Act) -> fmt::Result {
    match act {
        Act::Pass => write!(f, "comes"),
        Act::Lose => write!(f, "is lost"),
        Act::Repeat(more) => write!(f, "comes, and once more so many times: {more}"),
        Act::Hold(further) => write!(f, "is held until so many others have come: {further}"),
    }
}

fn write_status<W: fmt::Write>(f: &mut fmt::Formatter<W>, status: NodeStatus) -> fmt::Result {
    write!(f, "node {}", status.node)?;
    if let Some(address) = status.address {
        write!(f, " ({address})")?;
    }
    write!(f, ": ")?;
    if status.is_stopped {
        write!(f, "is stopped, ")?;
    }
    match status.master {
        None => write!(f, "master")?,
        Some(master) => write!(f, "replica of node {master}")?,
    }
    write!(
        f,
        ", slots: {}, keys: {}, bytes of the stream: {}",
        status.slots, status.keys, status.offset
    )?;
    if let Some(behind) = status.behind {
        write!(f, ", bytes that a replica lacks: {behind}")?;
    }
    write!(f, ", clients: {}, steps: {}", status.clients, status.steps)
}

// How a node was promoted, where that was wanted.
fn how(is_planned: bool) -> &'static str {
    if is_planned { " as planned" } else { "" }
}

fn text_of(shortage: Shortage) -> &'static str {
    match shortage {
        Shortage::Memory => "memory is refused",
        Shortage::Thread => "the system starts no thread",
        Shortage::Descriptor => "no descriptor is left",
    }
}
