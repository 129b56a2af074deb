//! Where the clients that come to a node wait for the thread that serves them in turn with others.

use std::alloc::{AllocError, Global};
use std::collections::VecDeque;
use std::net::TcpStream;
use std::sync::{Arc, Mutex, Wait};

/// A client that no thread serves yet.
#[derive(Drop)]
pub struct NewClient<A> {
    /// Its connection.
    pub stream: Arc<TcpStream, Global>,
    /// By which it is removed from the clients of the cluster.
    pub number: usize,
    /// What it has asked of the node: nothing yet.
    pub asks: A,
}

/// The new clients that wait for one thread.
#[derive(Drop)]
pub struct Inbox<A> {
    waiting: Mutex<Waiting<A>>,
}

#[derive(Drop)]
struct Waiting<A> {
    clients: VecDeque<NewClient<A>>,
    // The thread has ended.
    is_closed: bool,
}

/// Why a client can't wait in an inbox.
#[derive(Clone, Copy, PartialEq, Eq, Debug)]
pub enum InboxFault {
    /// Memory was refused.
    Memory,
    /// The thread has ended.
    Closed,
}

impl From<AllocError> for InboxFault {
    fn from(_refused: AllocError) -> InboxFault {
        InboxFault::Memory
    }
}

impl<A: Drop> Inbox<A> {
    /// One in which nobody waits.
    pub fn new(alloc: Global) -> Inbox<A> {
        let waiting = Waiting {
            clients: VecDeque::new(alloc),
            is_closed: false,
        };
        Inbox {
            waiting: Mutex::new(waiting),
        }
    }

    /// Has the client wait for the thread.
    pub fn put<R: Wait>(&self, rt: &R, new_client: NewClient<A>) -> Result<(), InboxFault> {
        let mut waiting = self.waiting.lock(rt);
        if waiting.is_closed {
            return Err(InboxFault::Closed);
        }
        match waiting.clients.push_back(new_client) {
            Ok(()) => Ok(()),
            Err(refused) => Err(InboxFault::from(AllocError::from(refused))),
        }
    }

    /// The next client, if one waits.
    pub fn take<R: Wait>(&self, rt: &R) -> Option<NewClient<A>> {
        let mut waiting = self.waiting.lock(rt);
        waiting.clients.pop_front()
    }

    /// Closes the inbox, if nobody waits there, and says whether it is closed.
    pub fn close<R: Wait>(&self, rt: &R) -> bool {
        let mut waiting = self.waiting.lock(rt);
        waiting.is_closed = waiting.clients.is_empty();
        waiting.is_closed
    }
}
