//! The end of a cluster that is served, and of a node alone.

use std::sync::atomic::{AtomicBool, Ordering};
use std::sync::{Condvar, Wait};
use std::time::Duration;

// How many seconds a thread that waits for the end sleeps before it looks again. It is woken at the end, so they may be many.
const LONG: u64 = 3600;

/// A node, by its number, that is stopped once it has made so many ticks, while the others are served on.
#[derive(Clone, Copy, PartialEq, Eq, Debug)]
pub struct NodeStop {
    pub node: usize,
    pub ticks: u64,
}

/// How many ticks the node of that number makes before it is stopped. Of several stops the earliest counts, and a node that has none
/// isn't stopped.
pub fn most_ticks(stops: &[NodeStop], node: usize) -> u64 {
    let mut most = u64::MAX;
    for stop in stops {
        if stop.node == node {
            most = most.min(stop.ticks);
        }
    }
    most
}

/// Whether the cluster ends. All of its threads look at it, and those that sleep are woken by it.
#[derive(Drop)]
pub struct Stop {
    ended: AtomicBool,
    bell: Condvar,
}

impl Stop {
    pub fn new() -> Stop {
        Stop {
            ended: AtomicBool::new(false),
            bell: Condvar::new(),
        }
    }

    /// Ends the cluster.
    pub fn end(&self) {
        self.ended.store(true, Ordering::SeqCst);
        self.bell.notify_all();
    }

    /// Whether the cluster ends.
    pub fn has_ended(&self) -> bool {
        self.ended.load(Ordering::SeqCst)
    }

    /// Sleeps for this time, or until the end if that comes first.
    pub fn sleep<R: Wait>(&self, rt: &R, time: Duration) {
        let seen = self.bell.notifications();
        if !self.has_ended() {
            self.bell.sleep(rt, seen, time);
        }
    }

    /// Sleeps until the end.
    pub fn wait<R: Wait>(&self, rt: &R) {
        for _ in rt.forever() {
            if self.has_ended() {
                return;
            }
            self.sleep(rt, Duration::from_secs(LONG));
        }
    }
}
