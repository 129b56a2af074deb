//! The clients that are connected to the cluster.

use crate::spare::Spares;
use crate::witness::{Shortage, Witness};
use slab::Slab;
use std::alloc::{AllocError, Global};
use std::net::{Shutdown, TcpStream};
use std::sync::{Arc, Condvar, Mutex, Wait};

/// The connections that are open, at all nodes, so that they can be shut down at the end, and those to a node as it is stopped.
pub struct Clients {
    /// The descriptors that are kept back.
    pub spares: Spares,
    /// It sees who can't be served.
    pub witness: Arc<Witness, Global>,
    streams: Mutex<Streams>,
    // It rings when a connection is removed.
    bell: Condvar,
}

// It does what the derive would. Written out it is one call wherever the clients are let go.
impl Drop for Clients {
    fn drop(self) {
        let Clients {
            spares: _,
            witness: _,
            streams: _,
            bell: _,
        } = self;
    }
}

#[derive(Drop)]
struct Streams {
    open: Slab<Client, Global>,
    // By the number of a node: once its connections are shut down, none is added there any more.
    are_shut: Vec<bool>,
}

// A connection to the node of that number.
#[derive(Drop)]
struct Client {
    node: usize,
    stream: Arc<TcpStream, Global>,
}

/// Why a client can't be served.
#[derive(Clone, Copy, PartialEq, Eq, Debug)]
pub enum Refused {
    /// There is none of this for it.
    Short(Shortage),
    /// The node is stopped, or the cluster ends.
    Ended,
}

impl From<AllocError> for Refused {
    fn from(_refused: AllocError) -> Refused {
        Refused::Short(Shortage::Memory)
    }
}

impl Clients {
    /// No clients of so many nodes.
    pub fn new(
        alloc: Global,
        nodes: usize,
        witness: &Arc<Witness, Global>,
    ) -> Result<Clients, AllocError> {
        let streams = Streams {
            open: Slab::new(alloc),
            are_shut: vec![in alloc; false; nodes]?,
        };
        Ok(Clients {
            spares: Spares::new(alloc, nodes)?,
            witness: Arc::try_clone(witness)?,
            streams: Mutex::new(streams),
            bell: Condvar::new(),
        })
    }

    /// Adds the connection to the node of that number, and gives the key by which it is removed.
    pub fn add<R: Wait>(
        &self,
        rt: &R,
        node: usize,
        stream: &Arc<TcpStream, Global>,
    ) -> Result<usize, Refused> {
        let stream = Arc::try_clone(stream)?;
        let mut streams = self.streams.lock(rt);
        if streams.is_shut(node) {
            return Err(Refused::Ended);
        }
        match streams.open.insert(Client { node, stream }) {
            Ok(key) => Ok(key),
            Err(_) => Err(Refused::Short(Shortage::Memory)),
        }
    }

    /// Removes the connection with the key.
    pub fn remove<R: Wait>(&self, rt: &R, key: usize) {
        let mut streams = self.streams.lock(rt);
        let _stream = streams.open.try_remove(key);
        self.bell.notify_all();
    }

    /// How many connections to the node of that number are open.
    pub fn count_at<R: Wait>(&self, rt: &R, node: usize) -> usize {
        let streams = self.streams.lock(rt);
        let mut count = 0usize;
        for (_, client) in streams.open.iter() {
            if client.node == node {
                count = count.saturating_add(1);
            }
        }
        count
    }

    /// Shuts all connections down for good, so that nobody reads or writes there any more, and waits until each is removed. The
    /// descriptors that were kept back are given up.
    pub fn shut_down<R: Wait>(&self, rt: &R) {
        self.spares.give_all(rt);
        let mut streams = self.streams.lock(rt);
        for node in 0..streams.are_shut.len() {
            streams.shut_down_at(node);
        }
        let _none = self
            .bell
            .wait_while(rt, streams, |streams| !streams.open.is_empty());
    }

    /// Shuts the connections to the node of that number down for good. The threads that serve them may still be at work.
    pub fn shut_down_at<R: Wait>(&self, rt: &R, node: usize) {
        let mut streams = self.streams.lock(rt);
        streams.shut_down_at(node);
    }
}

impl Streams {
    // Whether the connections to the node of that number are shut down.
    fn is_shut(&self, node: usize) -> bool {
        self.are_shut.get(node).copied().unwrap_or(true)
    }

    // Shuts them down.
    fn shut_down_at(&mut self, node: usize) {
        if let Some(is_shut) = self.are_shut.get_mut(node) {
            *is_shut = true;
        }
        for (_, client) in self.open.iter() {
            if client.node == node {
                let _shut = client.stream.shutdown(Shutdown::Both);
            }
        }
    }
}
