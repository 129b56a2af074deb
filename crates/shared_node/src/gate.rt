//! A conversation's way to a node: a cell behind a lock.
ghost use Rattle.std.specs.Prelude.{◌≡◌, ◌++◌, ◌∷◌, [], None, Some, IfSome};
ghost use Rattle.node_gate.specs.Asks.Asked.{waiting};
ghost use Rattle.shared_node.specs.Answers.{Keeps, MayCome, MayGive};

use crate::shared::SharedNode;
use connections::Conn;
use node_cell::{Asks, Entered, HoldsCell, NodeGate};
use node_step::{Event, StepFault};
use resp_values::Reply;
use std::mem;
use std::sync::{MutexGuard, Wait};

/// One conversation's way to a node whose cell is in a `C`. The handle `rt` is the leave to wait for the node's lock.
///
/// It is released before it is dropped: else the thread that takes the node's messages isn't told of those that steps left.
pub struct Gate<'n, C: HoldsCell, R: Wait> {
    rt: R,
    node: &'n SharedNode<C>,
    // The node with its lock, from a step on until others are let in.
    held: Option<MutexGuard<'n, C>>,
    // Steps left messages, and the thread that takes them wasn't told.
    has_left: bool,
    asks: Asks<C::Cluster>,
}

impl<C: HoldsCell + Drop, R: Wait + Drop> Drop for Gate<'_, C, R> {
    fn drop(self) {
        let Gate {
            rt: _,
            node: _,
            held: _,
            has_left: _,
            asks: _,
        } = self;
    }
}

impl<'n, C: HoldsCell + Drop, R: Wait> Gate<'n, C, R> {
    /// The way to the node of what is asked so.
    pub fn new(rt: R, node: &'n SharedNode<C>, asks: Asks<C::Cluster>) -> Gate<'n, C, R>
        ensures { ⟦<Gate<'n, C, R> as NodeGate>⟧.asked result ≡ asks }
    {
        Gate {
            rt,
            node,
            held: None,
            has_left: false,
            asks,
        }
    }

    /// Locks the node, where this conversation doesn't hold it yet. It is held until others are let in.
    pub fn hold(&mut self)
        ensures { Keeps ⟦<Gate<'n, C, R> as NodeGate>⟧.asked self.old self.new }
    {
        self.held = Some(self.take_or_lock());
    }

    /// The node behind its lock, as long as this conversation holds it.
    pub fn held(&self) -> Option<&C> {
        match &self.held {
            Some(cell) => Some(&**cell),
            None => None,
        }
    }

    /// Tells the conversations that wait of the replies that are kept there, as long as this one holds the node.
    pub fn ring_for_replies(&self) {
        if let Some(cell) = &self.held {
            self.node.ring_for_replies(cell);
        }
    }

    /// Lets others in, as [`release`](NodeGate::release) does, and tells nobody yet of the messages that steps left.
    pub fn unlock(&mut self)
        ensures { Keeps ⟦<Gate<'n, C, R> as NodeGate>⟧.asked self.old self.new }
    {
        self.held = None;
    }

    /// Whether steps left messages of which nobody was told. Whoever calls this sees to them from now on.
    pub fn take_left(&mut self) -> bool
        ensures { Keeps ⟦<Gate<'n, C, R> as NodeGate>⟧.asked self.old self.new }
    {
        mem::replace(&mut self.has_left, false)
    }

    /// Tells the thread that takes the node's messages, if steps left some of which it wasn't told.
    pub fn tell(&mut self)
        ensures { Keeps ⟦<Gate<'n, C, R> as NodeGate>⟧.asked self.old self.new }
    {
        if self.take_left() {
            self.node.ring_for_mail();
        }
    }

    /// Changes places with the conversation that asked this: from now on that one has this way to the node, and the lock with it. So a
    /// thread that serves several conversations keeps the node from one to the next.
    pub fn swap_asks(&mut self, asks: &mut Asks<C::Cluster>)
        ensures comes { ⟦<Gate<'n, C, R> as NodeGate>⟧.asked self.new ≡ asks.old }
        ensures goes { asks.new ≡ ⟦<Gate<'n, C, R> as NodeGate>⟧.asked self.old }
    {
        mem::swap(&mut self.asks, asks);
    }

    /// Takes the reply to the connection, whose last request was answered with [`Parked`](node_step::Response::Parked), if the node has
    /// it by now. The node is held until others are let in.
    pub fn look(&mut self, conn: Conn) -> Option<Reply>
        ensures heard { IfSome result (λ reply. ⟦<Gate<'n, C, R> as NodeGate>⟧.asked self.new
            ≡ ⟦<Gate<'n, C, R> as NodeGate>⟧.asked self.old ++ waiting conn (Some reply) ∷ []) }
        ensures given { IfSome result (λ reply. MayGive C.Cluster.config conn reply) }
        ensures none { result ≡ None → Keeps ⟦<Gate<'n, C, R> as NodeGate>⟧.asked self.old self.new }
    {
        // No step is made, so there is no pace to keep.
        let mut locked = match self.held.take() {
            Some(locked) => locked,
            None => self.node.lock(&self.rt),
        };
        let found = locked.take_reply(&mut self.asks, conn);
        self.held = Some(locked);
        found
    }

    // Notes what a step left in the cell, and rings for replies.
    fn note_left(&mut self, cell: &C)
        ensures { self.new.asks ≡ self.old.asks }
    {
        self.node.ring_for_replies(cell);
        self.has_left |= self.node.note_sent(cell);
    }

    // The node with its lock, which is taken where this conversation doesn't hold it yet.
    #[inline(always)]
    fn take_or_lock(&mut self) -> MutexGuard<'n, C>
        ensures { self.new.asks ≡ self.old.asks }
    {
        match self.held.take() {
            Some(cell) => cell,
            None => {
                self.node.keep_pace(&self.rt);
                self.node.lock(&self.rt)
            }
        }
    }
}

impl<'n, C: HoldsCell + Drop, R: Wait> NodeGate for Gate<'n, C, R> {
    type Answer = Entered<C::Cluster>;

    ghost use Rattle.shared_node.specs.Answers.{MayCome};

    ghost asked = { λ gate. gate.asks };

    ghost allowed = { MayCome C.Cluster.config };

    #[inline(always)]
    fn step(&mut self, event: Event) -> Result<Entered<C::Cluster>, StepFault> {
        let mut cell = self.take_or_lock();
        let answer = cell.ask(&mut self.asks, event);
        self.node.count_answer(&answer);
        self.note_left(&cell);
        self.held = Some(cell);
        answer
    }

    fn wait(&mut self, conn: Conn) -> Option<Reply> {
        let cell = self.take_or_lock();
        self.tell();
        wait_at(&self.rt, self.node, cell, &mut self.asks, conn)
    }

    fn release(&mut self) {
        self.unlock();
        self.tell();
    }
}

// Waits at the node until it keeps a reply for the connection, or none will come any more, and notes which.
fn wait_at<'n, C: HoldsCell + Drop, R: Wait>(
    rt: &R,
    node: &SharedNode<C>,
    mut cell: MutexGuard<'n, C>,
    asks: &mut Asks<C::Cluster>,
    conn: Conn,
) -> Option<Reply>
    ensures asked { asks.new ≡ asks.old ++ waiting conn result ∷ [] }
    ensures allowed { MayCome C.Cluster.config (waiting conn result) }
{
    for _ in rt.forever() {
        let reply = cell.take_reply(asks, conn);
        if reply.is_some() {
            return reply;
        }
        if node.is_closed() {
            break;
        }
        cell = node.wait_for_replies(rt, cell);
    }
    asks.note_none(conn);
    None
}
