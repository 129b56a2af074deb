//! A node of a cluster that is served.

use crate::shared::SharedNode;
use node_cell::HoldsCell;
use slot_table::NodeNo;
use std::io;
use std::net::{Net, SocketAddr, TcpListener, TcpStream};
use std::os::fd::OwnedFd;
use std::sync::atomic::{AtomicU64, Ordering};
use std::time::Duration;

// How many milliseconds a connection may take that wakes a thread which accepts. Where too many others wait to be accepted it is
// not made at all, and that thread needs no waking.
const WAKING: u64 = 100;

/// A node whose cell is in a `C`, and where its clients connect.
pub struct Node<C: HoldsCell> {
    /// The node behind its lock.
    pub shared: SharedNode<C>,
    /// Where its clients connect.
    pub listener: TcpListener,
    /// The address of that, if the system tells it.
    pub address: Option<SocketAddr>,
    // The node whose messages are taken first the next time.
    first_sender: AtomicU64,
}

impl<C: HoldsCell + Drop> Drop for Node<C> {
    fn drop(self) {
        let Node {
            shared: _,
            listener: _,
            address: _,
            first_sender: _,
        } = self;
    }
}

impl<C: HoldsCell + Drop> Node<C> {
    /// The node with this cell, whose clients connect there.
    pub fn new(cell: C, listener: TcpListener) -> Node<C> {
        let address = listener.local_addr().ok();
        Node {
            shared: SharedNode::new(cell),
            listener,
            address,
            first_sender: AtomicU64::new(0),
        }
    }

    /// The cell, once nobody serves the node.
    pub fn into_cell(self) -> C {
        let Node {
            shared,
            listener: _,
            address: _,
            first_sender: _,
        } = self;
        shared.into_cell()
    }

    /// The number of the node whose messages are taken first. It may be greater than that of the last node.
    pub fn first_sender(&self) -> usize {
        self.first_sender.load(Ordering::Relaxed) as usize % NodeNo::COUNT
    }

    /// Notes whose messages are taken first the next time.
    pub fn note_first_sender(&self, number: usize) {
        self.first_sender.store(number as u64, Ordering::Relaxed);
    }

    /// Wakes the thread that accepts clients.
    pub fn wake<R: Net>(&self, rt: &R) {
        if let Some(address) = self.address {
            let _woken = TcpStream::connect_timeout(rt, &address, Duration::from_millis(WAKING));
        }
    }

    /// A further handle of the socket that listens, by which it can be shut down. It is one descriptor more.
    pub fn listening(&self) -> io::Result<TcpStream> {
        let listener = self.listener.try_clone()?;
        Ok(TcpStream::from(OwnedFd::from(listener)))
    }
}
