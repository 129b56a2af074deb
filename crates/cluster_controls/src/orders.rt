//! Orders to a cluster that is served.

use std::alloc::{AllocError, Global};
use std::sync::atomic::{AtomicBool, AtomicU64, Ordering};

/// Orders that whoever runs a cluster gives while it is served. The nodes' threads look at them with each tick.
#[derive(Drop)]
pub struct Orders {
    // By the number of a node: whether it is to be stopped.
    are_to_stop: Vec<AtomicBool>,
    // How often it was asked how the nodes are.
    questions: AtomicU64,
}

impl Orders {
    /// None to so many nodes.
    pub fn new(alloc: Global, nodes: usize) -> Result<Orders, AllocError> {
        let mut are_to_stop = Vec::with_capacity(alloc, nodes)?;
        for _ in 0..nodes {
            are_to_stop
                .push(AtomicBool::new(false))
                .map_err(AllocError::from)?;
        }
        Ok(Orders {
            are_to_stop,
            questions: AtomicU64::new(0),
        })
    }

    /// Has the node of that number stopped, as if it were gone, while the others are served on.
    pub fn stop(&self, node: usize) {
        if let Some(stops) = self.are_to_stop.get(node) {
            stops.store(true, Ordering::SeqCst);
        }
    }

    /// Whether the node of that number is to be stopped.
    pub fn has_stop(&self, node: usize) -> bool {
        match self.are_to_stop.get(node) {
            Some(stops) => stops.load(Ordering::SeqCst),
            None => false,
        }
    }

    /// Asks how the nodes are.
    pub fn ask(&self) {
        self.questions.fetch_add(1, Ordering::SeqCst);
    }

    /// How often it was asked.
    pub fn questions(&self) -> u64 {
        self.questions.load(Ordering::SeqCst)
    }
}
