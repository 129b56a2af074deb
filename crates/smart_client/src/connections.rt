//! The connections of a client, one for each address.
ghost use Rattle.std.specs.Prelude.{◌≡◌, [], IfErr, OnOk, OnErr};
ghost use Rattle.smart_client.specs.Calls.{IsDone, MayAnswer};
ghost use Rattle.smart_client.specs.Pool.{empty_pool, pool_after, with_new};
ghost use Rattle.smart_client.specs.Step.{MayComeTo};
ghost use Rattle.smart_client.specs.Wires.{Joins, Misses, Moves, wires_of};
ghost use Rattle.smart_client.specs.declared.action.Action.TheVariants.{Connect};
ghost use Rattle.smart_client.specs.declared.call.Stage.TheVariants.{Connecting};

use crate::action::{Action, Event};
use crate::connect::{Connect, ConnectFault};
use crate::connection::Connection;
use crate::connection_pool::ConnectionPool;
use crate::network::Network;
use history::History;
use redirection::Address;
use std::alloc::Global;
use std::marker::Model;
use std::snapshot::Snapshot;

// What was wanted, and what came of it.
#[derive(Drop)]
struct Noted {
    action: Snapshot<Action>,
    event: Snapshot<Event>,
}

impl Model for Noted {
    ghost use Rattle.smart_client.specs.Calls.{Deed};

    ghost Value = { Deed };

    ghost view = { λ noted. record { action = noted.action.value; event = noted.event.value } };
}

/// The connections of a client, one for each address, made by a [`Connect`].
#[derive(Drop)]
pub struct Connections<C: Connect + Drop> {
    alloc: Global,
    connect: C,
    pool: ConnectionPool<C::Reader, C::Writer>,
    deeds: History<Noted>,
}

impl<C: Connect + Drop> Connections<C> {
    /// No connection yet.
    pub fn new(alloc: Global, connect: C) -> Connections<C>
        ensures deeds { result.deeds ≡ [] }
        ensures pool { result.pool ≡ record { pool = empty_pool; channels = []; closed = [] } }
    {
        Connections {
            alloc,
            connect,
            pool: ConnectionPool::new(alloc),
            deeds: History::new(),
        }
    }

    // Does what is wanted. It is noted later.
    fn carry_out(&mut self, action: &Action) -> Event
        requires { ¬ IsDone action.now }
        ensures event { MayAnswer action.now result }
        ensures deeds { self.new.deeds ≡ self.old.deeds }
        ensures pool { self.new.pool.pool ≡ pool_after action.now result self.old.pool.pool }
        ensures wires { Moves action.now result self.old.pool.pool
            (wires_of self.old.pool (C.failures self.old.connect)) (wires_of self.new.pool (C.failures self.new.connect)) }
    {
        match action {
            Action::Connect(address) => self.turn_to(address),
            Action::Send(words) => self.pool.exchange(words),
            Action::Done { .. } => unreachable!(),
        }
    }

    // Uses the connection to the address, the one that is kept or else a new one.
    fn turn_to(&mut self, address: &Address) -> Event
        ensures event { MayComeTo Connecting result }
        ensures deeds { self.new.deeds ≡ self.old.deeds }
        ensures pool { self.new.pool.pool ≡ pool_after (Connect address.now) result self.old.pool.pool }
        ensures wires { Moves (Connect address.now) result self.old.pool.pool
            (wires_of self.old.pool (C.failures self.old.connect)) (wires_of self.new.pool (C.failures self.new.connect)) }
    {
        if self.pool.turn_to(address) {
            return Event::Connected;
        }
        match self.open(address) {
            Ok(()) => Event::Connected,
            Err(ConnectFault::NotReached) => Event::NotConnected,
            Err(ConnectFault::Memory) => Event::NoMemory { handed: false },
        }
    }

    // Makes a new connection, and uses it.
    fn open(&mut self, address: &Address) -> Result<(), ConnectFault>
        ensures deeds { self.new.deeds ≡ self.old.deeds }
        ensures ok { OnOk result (self.new.pool.pool ≡ with_new self.old.pool.pool address.now) }
        ensures joins { OnOk result (Joins address.now
            (wires_of self.old.pool (C.failures self.old.connect)) (wires_of self.new.pool (C.failures self.new.connect))) }
        ensures err { OnErr result (self.new.pool ≡ self.old.pool) }
        ensures misses { IfErr result (λ fault. Misses fault (C.failures self.old.connect) (C.failures self.new.connect)) }
    {
        self.pool.reserve()?;
        let address = address.clone()?;
        let (reader, writer) = self.connect.connect(&address)?;
        let connection = Connection::new(self.alloc, address, reader, writer)?;
        self.pool.add(connection)?;
        Ok(())
    }
}

impl<C: Connect + Drop> Network for Connections<C> {
    ghost use Rattle.smart_client.specs.Wires.{wires_of};

    ghost deeds = { λ connections. connections.deeds };

    ghost pool = { λ connections. connections.pool.pool };

    ghost wires = { λ connections. wires_of connections.pool (C.failures connections.connect) };

    fn perform(&mut self, action: Action) -> Event {
        let event = self.carry_out(&action);
        self.deeds.push(&Noted {
            action: Snapshot::of(&action),
            event: Snapshot::of(&event),
        });
        event
    }

    fn close(&mut self) {
        self.pool.close();
    }
}
