//! The connections of a node's clients.
ghost use Rattle.std.specs.Prelude.{◌≡◌, ◌+◌, ◌<◌, ◌≤◌, max, [], is_some, IsSome, slice_index_or, vec_capacity, vec_len, MatchBool, IfOk, OnErr};
ghost use Rattle.connections.specs.Connections.{connection_at, open_at, Opens, Closes, IsUsedUp, may_ask, with_change, with_connection, waiting, all_freed, all_aged, connection_asking, connection_numbered, connection_waiting};
ghost use Rattle.connections.specs.Waiting.{test_of};
ghost use Rattle.connections.specs.Counting.{KeepsOthers};
ghost use Rattle.redirect.specs.declared.asked.Asking.TheVariants.{No};
ghost use Rattle.step_fault.specs.declared.fault.StepFault.TheVariants.{Exhausted};

use crate::conn::{Conn, Connection, Wait};
use crate::places::Places;
use crate::waiting::Waiting;
use crate::walks::{age_in, free_in, waiting_in};
use redirect::Asking;
use std::alloc::{AllocError, Global};
use std::marker::Model;
use step_fault::StepFault;

/// The connections that are open, and how often each key was opened. A call that fails changes nothing.
#[derive(Drop)]
pub struct Connections {
    places: Places,
    // How often each key was opened.
    opens: Vec<u64>,
    // How many connections wait. While none does, those that are open aren't looked through.
    waits: usize,
}

impl Model for Connections {
    ghost use Rattle.connections.specs.Connections.{ConnectionTable};
    ghost use Rattle.connections.specs.Counting.{AreCounted};

    ghost Value = { ConnectionTable };

    ghost view = { λ table. record { slots = table.places.slots; opens = table.opens.items } };

    ghost invariant = { λ table. AreCounted table.places.slots table.opens.items table.waits };
}

impl Connections {
    /// No connection. It takes no memory.
    pub fn new(alloc: Global) -> Connections
        ensures { result ≡ record { slots = []; opens = [] } }
    {
        Connections {
            places: Places::new(alloc),
            opens: Vec::new(alloc),
            waits: 0,
        }
    }

    /// What is known of the connection, if it is open.
    pub fn get(&self, conn: Conn) -> Option<Connection>
        ensures { result ≡ connection_at self.now conn }
    {
        match self.places.get(conn.key) {
            Some(connection) if connection.generation == conn.generation => Some(*connection),
            _ => None,
        }
    }

    /// Whether a request of the connection is taken: it is open, and waits for no reply.
    pub fn may_ask(&self, conn: Conn) -> bool
        ensures { result ≡ may_ask (connection_at self.now conn) }
    {
        match self.get(conn) {
            Some(connection) => connection.waits.is_none(),
            None => false,
        }
    }

    /// Takes a free key for a connection. Exhausted says that the key's generations are used up.
    pub fn open(&mut self) -> Result<Conn, StepFault>
        ensures opens { IfOk result (λ conn. Opens self.old self.new conn) }
        ensures err { OnErr result (self.new ≡ self.old) }
        ensures exhausted { result ≡ Err Exhausted → IsUsedUp self.old }
    {
        let key = self.places.next_key();
        let generation = self.opens.get(key).copied().unwrap_or(0);
        let Some(opens) = generation.checked_add(1) else {
            return Err(StepFault::Exhausted);
        };
        self.opens.reserve(1)?;
        let key = self.places.insert(Connection {
            generation,
            asking: Asking::No,
            numbered: false,
            waits: None,
        })?;
        set_count(&mut self.opens, key, opens);
        Ok(Conn { key, generation })
    }

    /// Frees the key of the connection, and says whether that was open. It takes no memory.
    pub fn close(&mut self, conn: Conn) -> bool
        ensures open { result ≡ is_some (connection_at self.old conn) }
        ensures closed { MatchBool result (Closes self.old self.new conn) (self.new ≡ self.old) }
    {
        let Some(connection) = self.get(conn) else {
            return false;
        };
        if connection.waits.is_some() {
            self.waits -= 1;
        }
        self.places.remove(conn.key);
        true
    }

    /// The next request of the connection has no ASKING before it. It takes no memory.
    pub fn use_up(&mut self, conn: Conn)
        ensures { self.new ≡ with_change self.old conn (connection_asking No) }
    {
        self.allow(conn, Asking::No);
    }

    /// The next request of the connection has this ASKING before it. It takes no memory.
    pub fn allow(&mut self, conn: Conn, asking: Asking)
        ensures { self.new ≡ with_change self.old conn (connection_asking asking) }
    {
        if let Some(asker) = self.get(conn) {
            self.put(conn.key, Connection { asking, ..asker });
        }
    }

    /// The ASK lines of the connection end with the number of the move from now on. It takes no memory.
    pub fn number(&mut self, conn: Conn)
        ensures { self.new ≡ with_change self.old conn connection_numbered }
    {
        if let Some(connection) = self.get(conn) {
            self.put(
                conn.key,
                Connection {
                    numbered: true,
                    ..connection
                },
            );
        }
    }

    /// The connection waits for this. It takes no memory.
    pub fn park(&mut self, conn: Conn, wait: Wait)
        ensures { self.new ≡ with_change self.old conn (connection_waiting wait) }
    {
        if let Some(connection) = self.get(conn) {
            self.put(
                conn.key,
                Connection {
                    waits: Some(wait),
                    ..connection
                },
            );
        }
    }

    // What is known of the connection that is open at the key is this.
    fn put(&mut self, key: usize, connection: Connection)
        requires { IsSome (open_at self.old key) }
        ensures { self.new ≡ with_connection self.old key connection }
    {
        let places = self.places.len();
        let Some(former) = self.places.get(key) else {
            return;
        };
        let waited = former.waits.is_some();
        self.places.put(key, connection);
        if waited {
            self.waits -= 1;
        }
        if connection.waits.is_some() {
            prove!(self.waits < places);
            self.waits += 1;
        }
    }

    /// The connections that wait and are meant, by rising key.
    pub fn waiting(&self, alloc: Global, which: &Waiting) -> Result<Vec<Conn>, AllocError>
        ensures { IfOk result (λ conns. conns.items ≡ waiting self.now (test_of which.now)) }
    {
        if self.waits == 0 {
            return Ok(Vec::new(alloc));
        }
        waiting_in(&self.places, alloc, which)
    }

    /// The connections that wait and are meant wait no more. It takes no memory.
    pub fn free(&mut self, which: &Waiting)
        ensures { self.new ≡ all_freed self.old (test_of which.now) }
    {
        if self.waits == 0 {
            return;
        }
        self.waits -= free_in(&mut self.places, which);
    }

    /// Each connection that waits has a tick less to wait, down to none. It takes no memory.
    pub fn age(&mut self)
        ensures { self.new ≡ all_aged self.old }
    {
        if self.waits == 0 {
            return;
        }
        age_in(&mut self.places);
    }
}

// Sets the count of a key, which may be the next one.
fn set_count(counts: &mut Vec<u64>, key: usize, count: u64)
    requires next { key ≤ vec_len counts.old }
    requires room { vec_len counts.old < vec_capacity counts.old }
    ensures set { slice_index_or counts.new.items key 0 ≡ count }
    ensures others { KeepsOthers key counts.old.items counts.new.items }
    ensures len { vec_len counts.new ≡ max (vec_len counts.old) (key + 1) }
{
    if key == counts.len() {
        counts.push_reserved(count);
    } else {
        counts[key] = count;
    }
}
