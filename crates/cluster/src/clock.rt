//! The time of a node, which passes in ticks, and its end where it is stopped alone.

use crate::crowd::Crowd;
use cluster_controls::{Incident, Orders, Stop};
use node_cell::{Asks, HoldsCell, NodeGate};
use node_step::Event;
use shared_node::{Gate, Node, SharedCluster};
use std::net::Shutdown;
use std::rt::Clock;
use std::sync::Wait;
use std::time::{Duration, Instant};

// How many milliseconds pass before a node that has no descriptor left to be stopped by is tried again.
const PAUSE: u64 = 10;

/// The ticks of a node.
#[derive(Clone, Copy)]
pub(crate) struct Timing {
    /// How long one takes.
    pub(crate) interval: Duration,
    /// How many are counted at most.
    pub(crate) most: u64,
    /// How many of them the node makes. Then it is stopped, and the others are counted alone.
    pub(crate) own: u64,
    /// Whether each client of the node has a thread of its own.
    pub(crate) has_threads: bool,
}

/// Lets the time of the node of that number pass until the end, or until all of its ticks are counted. `asks` is what was asked of the node for
/// this: nothing yet.
pub(crate) fn pass_time<C: HoldsCell + Drop, R: Clock + Wait + Copy + Drop>(
    rt: R,
    cluster: &SharedCluster<C>,
    orders: &Orders,
    number: usize,
    asks: Asks<C::Cluster>,
    timing: Timing,
) {
    let Some(node) = cluster.node(number) else {
        return;
    };
    let Timing {
        interval,
        most,
        own,
        has_threads,
    } = timing;
    let stop = &cluster.stop;
    let mut gate = Gate::new(rt, &node.shared, asks);
    let mut crowd = Crowd::watched(has_threads, interval);
    let mut rest = interval;
    let mut made = 0u64;
    for _ in 0..own.min(most) {
        stop.sleep(&rt, rest);
        if stop.has_ended() {
            return;
        }
        if orders.has_stop(number) {
            break;
        }
        // Behind a tick that took long, because others had the node or its processor, these have the node for as long once more.
        rest = interval.max(time_of_tick(&rt, &mut gate));
        if crowd.has_come(node.shared.sleeps()) {
            let node = number;
            cluster.witness().see(&rt, Incident::ClientsCrowd { node });
        }
        made = made.saturating_add(1);
    }
    if made < most {
        stop_node(&rt, cluster, number, node);
        wait_for(&rt, stop, interval, most.saturating_sub(made));
    }
}

// Stops the node of that number, while the others are served on: it takes and sends no message any more, its connections are shut
// down, and whoever connects to it is refused.
fn stop_node<C: HoldsCell + Drop, R: Clock + Wait>(
    rt: &R,
    cluster: &SharedCluster<C>,
    number: usize,
    node: &Node<C>,
) {
    // The node is closed first: the thread that accepts looks for that as its socket is shut down.
    node.shared.close(rt);
    cluster.clients.shut_down_at(rt, number);
    close_listener(rt, cluster, node);
    cluster
        .witness()
        .see(rt, Incident::Stopped { node: number });
}

// Has whoever connects to the node refused, unless the cluster ends first.
fn close_listener<C: HoldsCell + Drop, R: Wait>(
    rt: &R,
    cluster: &SharedCluster<C>,
    node: &Node<C>,
) {
    let stop = &cluster.stop;
    for _ in rt.forever() {
        if stop.has_ended() {
            return;
        }
        match node.listening() {
            Ok(socket) => {
                // A socket that listened is closed by this, whoever has another handle of it.
                let _shut = socket.shutdown(Shutdown::Both);
                return;
            }
            // No descriptor is left, so one that is kept back is given for it.
            Err(_) if cluster.clients.spares.give_one(rt) => {}
            Err(_) => stop.sleep(rt, Duration::from_millis(PAUSE)),
        }
    }
}

// Waits for so many intervals, or until the end.
fn wait_for<R: Wait>(rt: &R, stop: &Stop, interval: Duration, count: u64) {
    for _ in 0..count {
        stop.sleep(rt, interval);
        if stop.has_ended() {
            return;
        }
    }
}

// Makes a tick, and says how long it took. Without a clock that counts as no time.
fn time_of_tick<G: NodeGate, R: Clock>(rt: &R, gate: &mut G) -> Duration {
    let begun = Instant::now(rt).ok();
    tick(gate);
    begun
        .and_then(|begun| begun.elapsed(rt).ok())
        .unwrap_or(Duration::ZERO)
}

// A tick for which there is no memory is no step.
fn tick<G: NodeGate>(gate: &mut G) {
    let _refused = gate.step(Event::Tick);
    gate.release();
}
