//! The open connections of a client.
ghost use Rattle.std.specs.Prelude.{◌≡◌, ◌==◌, ◌++◌, ◌∷◌, [], ℕ, false, length, IsTrue, IsFalse, OnOk, OnErr};
ghost use Rattle.smart_client.specs.Pool.{closed, empty_pool, is_lost, is_same, place_in, pool_after, turned_to, unused, with_new, without_place};
ghost use Rattle.smart_client.specs.Wires.{Uses, at_place, channel_at, wires_of};
ghost use Rattle.smart_client.specs.Step.{MayComeTo};
ghost use Rattle.smart_client.specs.declared.action.Action.TheVariants.{Send};
ghost use Rattle.smart_client.specs.declared.call.Stage.TheVariants.{Sent};

use crate::action::Event;
use crate::connect::Reaches;
use crate::connection::Connection;
use crate::peers::is_same;
use history::History;
use redirection::Address;
use resp2::Words;
use std::alloc::{AllocError, Global};
use std::io::{Read, Write};
use std::marker::Model;

/// The open connections of a client, one for each address, and which of them is in use.
#[derive(Drop)]
pub(crate) struct ConnectionPool<R: Read + Reaches + Drop, W: Write + Reaches + Drop> {
    items: Vec<Connection<R, W>>,
    // The place of the one in use.
    used: Option<usize>,
    // Those that were closed, each as it was then. Only proofs read it.
    closed: History<Connection<R, W>>,
}

impl<R: Read + Reaches + Drop, W: Write + Reaches + Drop> Model for ConnectionPool<R, W> {
    ghost use Rattle.std.specs.Prelude.{◌<◌, IfSome, length, map};
    ghost use Rattle.smart_client.specs.Wires.{Lines, channel_at};

    ghost Value = { Lines };

    ghost view = { λ pool. record {
      pool = record { addresses = map (λ connection. connection.address) pool.items.items; used = pool.used };
      channels = map (channel_at R.remaining W.contents R.place W.place) pool.items.items;
      closed = map (channel_at R.remaining W.contents R.place W.place) pool.closed;
    } };

    ghost invariant = { λ pool. IfSome pool.used (λ place. place < length pool.items.items) };
}

impl<R: Read + Reaches + Drop, W: Write + Reaches + Drop> ConnectionPool<R, W> {
    /// None yet.
    pub(crate) fn new(alloc: Global) -> ConnectionPool<R, W>
        ensures { result ≡ record { pool = empty_pool; channels = []; closed = [] } }
    {
        ConnectionPool {
            items: Vec::new(alloc),
            used: None,
            closed: History::new(),
        }
    }

    /// Uses the connection to the address, if there is one, and says whether there is.
    pub(crate) fn turn_to(&mut self, address: &Address) -> bool
        ensures there { IsTrue result → self.new.pool ≡ turned_to address.now self.old.pool }
        ensures known { IsTrue result → (place_in self.old.pool.addresses address.now == length self.old.pool.addresses) ≡ false }
        ensures none { IsFalse result → (self.new.pool ≡ unused self.old.pool) × (place_in self.old.pool.addresses address.now ≡ length self.old.pool.addresses) }
        ensures channels { self.new.channels ≡ self.old.channels }
        ensures closed { self.new.closed ≡ self.old.closed }
    {
        self.used = self
            .items
            .iter()
            .position(|connection| leads_to(connection, address));
        self.used.is_some()
    }

    /// Takes the room for one more.
    pub(crate) fn reserve(&mut self) -> Result<(), AllocError>
        ensures { self.new ≡ self.old }
    {
        self.items.reserve(1)
    }

    /// Puts a connection behind the others, and uses it.
    pub(crate) fn add(&mut self, connection: Connection<R, W>) -> Result<(), AllocError>
        ensures ok { OnOk result (self.new.pool ≡ with_new self.old.pool connection.address) }
        ensures grown { OnOk result (self.new.channels ≡ self.old.channels ++ channel_at R.remaining W.contents R.place W.place connection ∷ []) }
        ensures closed { OnOk result (self.new.closed ≡ self.old.closed) }
        ensures err { OnErr result (self.new ≡ self.old) }
    {
        let place = self.items.len();
        self.items.push(connection)?;
        self.used = Some(place);
        Ok(())
    }

    /// Sends the words on the connection in use, and reads the reply. A connection that failed, or whose bytes are no reply, is
    /// closed.
    pub(crate) fn exchange(&mut self, words: &Words) -> Event
        ensures event { MayComeTo Sent result }
        ensures pool { self.new.pool ≡ pool_after (Send words.now) result self.old.pool }
        ensures wires { (failures : ℕ) → Uses words.now result self.old.pool.used (wires_of self.old failures) (wires_of self.new failures) }
    {
        let Some(place) = self.used else {
            return Event::Broken { handed: false };
        };
        let event = self.items[place].exchange(words);
        if is_lost(&event) {
            self.close();
        }
        event
    }

    /// Closes the connection in use, if there is one.
    pub(crate) fn close(&mut self)
        ensures pool { self.new.pool ≡ closed self.old.pool }
        ensures channels { self.new.channels ≡ without_place self.old.channels self.old.pool.used }
        ensures closed { self.new.closed ≡ self.old.closed ++ at_place self.old.channels self.old.pool.used }
    {
        if let Some(place) = self.used.take() {
            let closed = self.items.remove(place);
            self.closed.push(&closed);
        }
    }
}

// Whether the connection leads to the address.
fn leads_to<R: Read + Reaches + Drop, W: Write + Reaches + Drop>(
    connection: &Connection<R, W>,
    address: &Address,
) -> bool
    ensures { result ≡ is_same address.now connection.now.address }
{
    is_same(address, &connection.address)
}

// Whether the connection failed or ended, or bytes came on it that are no reply.
fn is_lost(event: &Event) -> bool
    ensures { result ≡ is_lost event.now }
{
    matches!(event, Event::Broken { .. } | Event::BadReply)
}
