//! The nodes that a client knows.
ghost use Rattle.std.specs.Prelude.{◌≡◌, ◌<◌, ◌≤◌, ◌∷◌, [], false, length, IfOk};
ghost use Rattle.smart_client.specs.Pool.{is_same};
ghost use Rattle.smart_client.specs.Step.{is_at, peer_at, place_of, with_address, with_connected};
ghost use Rattle.smart_client.specs.declared.client_core.TheConstants.{MOST_ADDRESSES};

use crate::client_core::MOST_ADDRESSES;
use redirection::Address;
use std::alloc::{AllocError, Global};
use std::marker::Model;

/// A node that the client knows.
#[derive(Debug, Drop)]
pub(crate) struct Peer {
    /// Where it is reached.
    pub address: Address,
    /// A connection to it is kept, on which nothing is unanswered, and which began with CLUSTER NUMBERED.
    pub is_connected: bool,
}

/// The nodes that a client knows, of which the first is the one to begin with. There is room for all that it may know.
#[derive(Debug, Drop)]
pub(crate) struct Peers {
    items: Vec<Peer>,
}

impl Model for Peers {
    ghost use Rattle.std.specs.Prelude.{List, ◌<◌, ◌≤◌, length, vec_capacity};
    ghost use Rattle.smart_client.specs.declared.peers.Peer.{Peer as Known};
    ghost use Rattle.smart_client.specs.declared.client_core.TheConstants.{MOST_ADDRESSES};

    ghost Value = { List Known };

    ghost view = { λ peers. peers.items.items };

    ghost invariant = { λ peers. (0 < length peers.items.items) × (length peers.items.items ≤ MOST_ADDRESSES) × (MOST_ADDRESSES ≤ vec_capacity peers.items) };
}

impl Peers {
    /// The node at the address alone.
    pub(crate) fn new(alloc: Global, start: Address) -> Result<Peers, AllocError>
        ensures { IfOk result (λ peers. peers ≡ record { address = start; is_connected = false } ∷ []) }
    {
        let mut items = Vec::with_capacity(alloc, MOST_ADDRESSES)?;
        let Ok(()) = items.push(Peer {
            address: start,
            is_connected: false,
        }) else {
            unreachable!();
        };
        Ok(Peers { items })
    }

    /// The node at the place.
    pub(crate) fn get(&self, place: usize) -> &Peer
        requires { place < length self.now }
        ensures { result.now ≡ peer_at self.now place }
    {
        &self.items[place]
    }

    /// How many there are.
    pub(crate) fn len(&self) -> usize
        ensures same { result ≡ length self.now }
        ensures bounds { (0 < length self.now) × (length self.now ≤ MOST_ADDRESSES) }
    {
        self.items.len()
    }

    /// The place of the node at the address, or the one behind all.
    pub(crate) fn place_of(&self, address: &Address) -> usize
        ensures place { result ≡ place_of self.now address.now }
        ensures within { result ≤ length self.now }
        ensures bound { length self.now ≤ MOST_ADDRESSES }
    {
        let found = self.items.iter().position(|peer| is_at(peer, address));
        found.unwrap_or(self.len())
    }

    /// Puts a node at this address behind the others, if there is none yet. There has to be room.
    pub(crate) fn learn(&mut self, address: Address)
        requires { place_of self.old address < MOST_ADDRESSES }
        ensures { self.new ≡ with_address self.old address }
    {
        if self.place_of(&address) < self.items.len() {
            return;
        }
        let Ok(()) = self.items.push(Peer {
            address,
            is_connected: false,
        })
        else {
            unreachable!();
        };
    }

    /// Notes whether a connection to the node at the place is kept.
    pub(crate) fn set_connected(&mut self, place: usize, is_connected: bool)
        requires { place < length self.old }
        ensures { self.new ≡ with_connected self.old place is_connected }
    {
        self.items[place].is_connected = is_connected;
    }
}

// Whether the node is at the address.
fn is_at(peer: &Peer, address: &Address) -> bool
    ensures { result ≡ is_at address.now peer.now }
{
    is_same(address, &peer.address)
}

/// Whether the other address is this one.
pub(crate) fn is_same(address: &Address, other: &Address) -> bool
    ensures { result ≡ is_same address.now other.now }
{
    other.host().as_slice() == address.host().as_slice() && other.port() == address.port()
}
