//! A thread that serves many clients of a node in turn, each when its socket is ready.

use crate::inbox::{Inbox, NewClient};
use crate::loop_client::LoopClient;
use crate::poller::{CALL, Poller};
use crate::register::Register;
use listener::SharedGate;
use mio::Token;
use slab::Slab;
use std::alloc::{AllocError, Global};
use std::io;
use std::net::TcpStream;
use std::rt::Clock;
use std::sync::Wait;
use std::time::Duration;
use turn_queue::TurnQueue;

// How many milliseconds pass at most before what wants memory is tried again where memory was refused.
const PAUSE: u64 = 10;

/// Serves the clients in the inbox at the node of the gate, until the node is closed and all of them have left. The register
/// is told of each that leaves.
pub fn serve_clients<G: SharedGate, L: Register, R: Clock + Wait>(
    rt: &R,
    alloc: Global,
    gate: &mut G,
    register: &L,
    inbox: &Inbox<G::Asks>,
    poller: Poller,
) {
    let mut own = ClientLoop::new(alloc, poller);
    for _ in rt.forever() {
        own.turn(rt, gate, register, inbox);
        if gate.is_closed() && own.is_alone(rt, inbox) {
            return;
        }
    }
}

// A thread's clients, and those of them for whom there is something to do.
struct ClientLoop<G: SharedGate> {
    alloc: Global,
    poller: Poller,
    clients: Slab<LoopClient<G>, Global>,
    // Those that have their turn, and those that wait for a reply. Each client has room in each queue.
    due: TurnQueue,
    listening: TurnQueue,
    // Those that were told why their conversation ended, and are still read for a moment, in the order in which they began that.
    lingering: TurnQueue,
    // How many of those that have their turn only wait for memory.
    starved: usize,
}

// It does what the derive would. Written out it is one call wherever a loop is let go.
impl<G: SharedGate> Drop for ClientLoop<G> {
    fn drop(self) {
        let ClientLoop {
            alloc: _,
            poller: _,
            clients: _,
            due: _,
            listening: _,
            lingering: _,
            starved: _,
        } = self;
    }
}

impl<G: SharedGate> ClientLoop<G> {
    fn new(alloc: Global, poller: Poller) -> ClientLoop<G> {
        ClientLoop {
            alloc,
            poller,
            clients: Slab::new(alloc),
            due: TurnQueue::new(alloc),
            listening: TurnQueue::new(alloc),
            lingering: TurnQueue::new(alloc),
            starved: 0,
        }
    }

    // A turn of all clients for whom there is something to be done. They are read and written to while others may have the node, and
    // ask it one behind another.
    fn turn<L: Register, R: Clock + Wait>(
        &mut self,
        rt: &R,
        gate: &mut G,
        register: &L,
        inbox: &Inbox<G::Asks>,
    ) {
        let is_called = self.wait(rt, gate.is_closed());
        let is_closed = gate.is_closed();
        if is_called {
            self.welcome(rt, register, inbox);
        }
        if is_called || is_closed {
            self.listen(gate, is_closed);
        }
        self.read();
        self.ask(gate);
        self.write(rt);
        self.end_lingering(rt);
        self.let_go(register);
        self.settle();
        gate.send();
    }

    // Waits until there is something to be done, notes for whom, and says whether the thread was woken.
    fn wait<R: Clock>(&mut self, rt: &R, is_closed: bool) -> bool {
        let patience = self.patience(rt, is_closed);
        let _waited = self.poller.poll.poll(&mut self.poller.events, patience);
        let mut is_called = false;
        for event in self.poller.events.iter() {
            let Token(key) = event.token();
            match self.clients.get_mut(key) {
                Some(client) => {
                    client.note_event(event);
                    self.due.add(key);
                }
                None => is_called |= event.token() == CALL,
            }
        }
        is_called
    }

    // How long there is nothing to do if nothing comes.
    fn patience<R: Clock>(&self, rt: &R, is_closed: bool) -> Option<Duration> {
        // Nobody wakes the thread for those that wait for a reply once the node is closed.
        let wait_in_vain = is_closed && !self.listening.is_empty();
        if wait_in_vain || self.due.len() > self.starved {
            return Some(Duration::ZERO);
        }
        let pause = match self.starved {
            0 => None,
            _ => Some(Duration::from_millis(PAUSE)),
        };
        shorter(pause, self.lingering_left(rt))
    }

    // For how long the first of those is read that are still read for a moment.
    fn lingering_left<R: Clock>(&self, rt: &R) -> Option<Duration> {
        let client = self.clients.get(self.lingering.front()?)?;
        Some(client.time_left(rt).unwrap_or(Duration::ZERO))
    }

    // Takes those in that wait in the inbox.
    fn welcome<L: Register, R: Wait>(&mut self, rt: &R, register: &L, inbox: &Inbox<G::Asks>) {
        for _ in rt.forever() {
            let Some(new_client) = inbox.take(rt) else {
                return;
            };
            let number = new_client.number;
            if !self.admit(new_client) {
                register.note_refused(number);
            }
        }
    }

    // Takes a client in, and says whether there was memory for it, here and in the system.
    fn admit(&mut self, new_client: NewClient<G::Asks>) -> bool {
        let NewClient {
            stream,
            number,
            asks,
        } = new_client;
        if self.prepare(&*stream).is_err() {
            return false;
        }
        self.add(LoopClient::new(stream, number, asks)).is_ok()
    }

    // Prepares all for a client on this connection. An error is that there is no memory for it, here or in the system.
    fn prepare(&mut self, stream: &TcpStream) -> io::Result<()> {
        self.make_room()?;
        stream.set_nonblocking(true)?;
        // A reply is one write, so nothing is gained by waiting for more.
        let _nodelay = stream.set_nodelay(true);
        self.poller.register(stream, self.clients.vacant_key())
    }

    fn add(&mut self, client: LoopClient<G>) -> Result<(), AllocError> {
        let key = self.clients.insert(client).map_err(AllocError::from)?;
        self.due.add(key);
        Ok(())
    }

    // Makes room for one more client, in each queue, too.
    fn make_room(&mut self) -> Result<(), AllocError> {
        let key = self.clients.vacant_key();
        self.due.make_room(key)?;
        self.listening.make_room(key)?;
        self.lingering.make_room(key)?;
        self.clients.reserve(1)
    }

    // Takes replies that came later.
    fn listen(&mut self, gate: &mut G, is_closed: bool) {
        for _ in 0..self.listening.len() {
            let Some(key) = self.listening.pop_front() else {
                break;
            };
            let Some(client) = self.clients.get_mut(key) else {
                continue;
            };
            client.listen(gate, is_closed);
            match client.is_parked() {
                true => self.listening.add(key),
                false => self.due.add(key),
            }
        }
        gate.release();
    }

    fn read(&mut self) {
        for key in self.due.iter() {
            if let Some(client) = self.clients.get_mut(*key) {
                client.read(self.poller.input.as_mut_slice());
            }
        }
    }

    // Has the node answer requests. Messages that these leave are sent behind the replies, or carried at once where a client waits for what others
    // answer.
    fn ask(&mut self, gate: &mut G) {
        let mut is_awaited = false;
        for key in self.due.iter() {
            if let Some(client) = self.clients.get_mut(*key) {
                client.ask(self.alloc, gate);
                is_awaited |= client.is_parked();
                gate.give_way();
            }
        }
        match is_awaited {
            true => self.carry(gate),
            false => gate.unlock(),
        }
    }

    // Carries messages, and takes the replies that come of them at once.
    fn carry(&mut self, gate: &mut G) {
        gate.carry();
        for key in self.due.iter() {
            if let Some(client) = self.clients.get_mut(*key)
                && client.is_parked()
            {
                client.listen(gate, false);
            }
        }
        gate.leave_to_others();
    }

    fn write<R: Clock>(&mut self, rt: &R) {
        for key in self.due.iter() {
            if let Some(client) = self.clients.get_mut(*key) {
                client.write(rt);
            }
        }
    }

    // Reads those no more that were read long enough. They have their turn, in which they are let go.
    fn end_lingering<R: Clock>(&mut self, rt: &R) {
        for _ in 0..self.lingering.len() {
            let Some(key) = self.lingering.front() else {
                break;
            };
            let Some(client) = self.clients.get_mut(key) else {
                break;
            };
            if client.time_left(rt).is_some() {
                break;
            }
            client.stop_lingering();
            self.due.add(key);
            let _first = self.lingering.pop_front();
        }
    }

    // Lets those go for whom nothing more is done.
    fn let_go<L: Register>(&mut self, register: &L) {
        for index in 0..self.due.len() {
            let Some(key) = self.due.get(index) else {
                break;
            };
            if self.clients.get(key).is_some_and(|client| client.is_over()) {
                self.remove(key, register);
            }
        }
    }

    fn remove<L: Register>(&mut self, key: usize, register: &L) {
        let Some(client) = self.clients.try_remove(key) else {
            return;
        };
        self.listening.remove(key);
        self.lingering.remove(key);
        self.poller.deregister(client.raw_fd());
        let number = client.number;
        drop(client);
        register.note_left(number);
    }

    // Keeps those in the queues that go on at once, those that wait for a reply, and those that are still read for a moment.
    fn settle(&mut self) {
        self.starved = 0;
        for _ in 0..self.due.len() {
            let Some(key) = self.due.pop_front() else {
                break;
            };
            let Some(client) = self.clients.get(key) else {
                continue;
            };
            if client.is_parked() {
                self.listening.add(key);
            }
            if client.is_leaving() {
                self.lingering.add(key);
            }
            if client.goes_on() {
                self.due.add(key);
                self.starved = self
                    .starved
                    .saturating_add(usize::from(client.is_starved()));
            }
        }
    }

    // Whether all clients have left, and none waits in the inbox, which takes none from then on.
    fn is_alone<R: Wait>(&self, rt: &R, inbox: &Inbox<G::Asks>) -> bool {
        self.clients.is_empty() && inbox.close(rt)
    }
}

// The shorter one of these times, where None has no end.
fn shorter(one: Option<Duration>, other: Option<Duration>) -> Option<Duration> {
    match (one, other) {
        (Some(one), Some(other)) => Some(one.min(other)),
        (Some(time), None) | (None, Some(time)) => Some(time),
        (None, None) => None,
    }
}
