//! Descriptors that are kept back, so that a client for which there is none is closed and not left waiting.

use std::alloc::{AllocError, Global};
use std::net::TcpListener;
use std::sync::{Mutex, Wait};

/// Descriptors that are kept back, one for each thread that accepts clients.
///
/// Where a thread can't accept for want of a descriptor, it gives one of these back to the system and accepts with that. A client is
/// served only while all of them are kept, and else closed, which returns its descriptor. So there is always one for each of these
/// threads: the threads that take what another gave back are no more than what was kept.
#[derive(Drop)]
pub struct Spares {
    // Further handles of sockets that listen. Nobody uses them.
    kept: Mutex<Vec<TcpListener>>,
    wanted: usize,
}

impl Spares {
    /// None yet, of so many that are wanted.
    pub fn new(alloc: Global, wanted: usize) -> Result<Spares, AllocError> {
        Ok(Spares {
            kept: Mutex::new(Vec::with_capacity(alloc, wanted)?),
            wanted,
        })
    }

    /// Keeps again what was given back, as far as the system has it, and says whether all are kept.
    pub fn are_kept<R: Wait>(&self, rt: &R, listener: &TcpListener) -> bool {
        let mut kept = self.kept.lock(rt);
        for _ in kept.len()..self.wanted {
            let Ok(spare) = listener.try_clone() else {
                return false;
            };
            if kept.push(spare).is_err() {
                return false;
            }
        }
        true
    }

    /// Gives one back to the system, and says whether there was one.
    pub fn give_one<R: Wait>(&self, rt: &R) -> bool {
        let mut kept = self.kept.lock(rt);
        kept.pop().is_some()
    }

    /// Gives all back.
    pub fn give_all<R: Wait>(&self, rt: &R) {
        let mut kept = self.kept.lock(rt);
        kept.clear();
    }
}
