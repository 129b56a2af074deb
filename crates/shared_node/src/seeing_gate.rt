//! The way of a cluster's conversations to their node.
ghost use Rattle.std.specs.Prelude.{◌≡◌, IfSome};

use crate::arrivals::Arrival;
use crate::carrying::{Replies, carry_at_once, send};
use crate::gate::Gate;
use crate::node::Node;
use crate::served::SharedCluster;
use connections::Conn;
use listener::SharedGate;
use node_cell::{Asks, Entered, HasLinks, HoldsCell, NodeGate};
use node_gate::Answered;
use node_step::{Event, Response, StepFault};
use resp_values::Reply;
use std::alloc::Global;
use std::rt::Clock;
use std::sync::Wait;

// After this many steps a thread that serves several conversations lets others ask the node.
const MOST_STEPS: u32 = 64;

/// A conversation's way to the node of that number, by which its messages are carried where it waits for another node, and at which the
/// witness sees each slot that arrives by an order of its client.
///
/// It looks for slots before the step and behind it, under one hold of the node's lock, and where nobody listens at nothing but that. What it
/// sees comes before all that others see of the slot then: nobody else has the node yet.
pub struct SeeingGate<'n, C: HoldsCell, R: Wait> {
    rt: R,
    alloc: Global,
    gate: Gate<'n, C, R>,
    cluster: &'n SharedCluster<C>,
    node: &'n Node<C>,
    number: usize,
    mail: Mail,
    // How many steps were made since the node was last released.
    steps: u32,
}

// It does what the derive would. Written out it is one call wherever a gate is let go.
impl<'n, C: HoldsCell + Drop, R: Wait + Drop> Drop for SeeingGate<'n, C, R> {
    fn drop(self) {
        let SeeingGate {
            rt: _,
            alloc: _,
            gate: _,
            cluster: _,
            node: _,
            number: _,
            mail: _,
            steps: _,
        } = self;
    }
}

/// Who sends the messages that a conversation's steps leave.
#[derive(Clone, Copy, PartialEq, Eq)]
pub enum Mail {
    /// The thread that carries the node's messages. It is told of each step that leaves some, but for one whose reply comes later: what that one
    /// leaves is carried by whoever waits for the reply.
    IsFetched,
    /// Whoever has the gate sends or carries them, once others are let in.
    IsSent,
}

impl<'n, C: HasLinks<R> + Drop, R: Clock + Wait + Copy> SeeingGate<'n, C, R> {
    /// The way of a conversation that has asked this to the node of that number. None where there is no such node.
    pub fn new(
        rt: R,
        alloc: Global,
        cluster: &'n SharedCluster<C>,
        number: usize,
        asks: Asks<C::Cluster>,
        mail: Mail,
    ) -> Option<SeeingGate<'n, C, R>>
        ensures { IfSome result
            (λ seeing. ⟦<Gate<'n, C, R> as NodeGate>⟧.asked seeing.gate ≡ asks) }
    {
        let node = cluster.node(number)?;
        Some(SeeingGate {
            rt,
            alloc,
            gate: Gate::new(rt, &node.shared, asks),
            cluster,
            node,
            number,
            mail,
            steps: 0,
        })
    }

    // The slot that may arrive by this event, where somebody listens. The node is held then.
    fn awaited(&mut self, event: &Event) -> Option<Arrival>
        ensures { ⟦<Gate<'n, C, R> as NodeGate>⟧.asked self.new.gate
            ≡ ⟦<Gate<'n, C, R> as NodeGate>⟧.asked self.old.gate }
    {
        if !self.cluster.witness().wants_all() {
            return None;
        }
        let slot = Arrival::slot_given_by(event)?;
        self.gate.hold();
        Arrival::of(self.gate.held()?, slot)
    }

    // Has the witness see the slot, if it is the node's own now.
    fn tell(&self, arrival: Arrival) {
        if let Some(cell) = self.gate.held()
            && let Some(arrived) = arrival.incident(cell, self.number)
        {
            self.cluster.witness().see(&self.rt, arrived);
        }
    }

    // Lets others in.
    fn let_in(&mut self)
        ensures { ⟦<Gate<'n, C, R> as NodeGate>⟧.asked self.new.gate
            ≡ ⟦<Gate<'n, C, R> as NodeGate>⟧.asked self.old.gate }
    {
        self.steps = 0;
        self.gate.unlock();
    }
}

impl<'n, C: HasLinks<R> + Drop, R: Clock + Wait + Copy> NodeGate for SeeingGate<'n, C, R> {
    type Answer = Entered<C::Cluster>;

    ghost use Rattle.shared_node.specs.Answers.{MayCome};

    ghost asked = { λ seeing. ⟦<Gate<'n, C, R> as NodeGate>⟧.asked seeing.gate };

    ghost allowed = { MayCome C.Cluster.config };

    #[inline(always)]
    fn step(&mut self, event: Event) -> Result<Entered<C::Cluster>, StepFault> {
        self.steps = self.steps.saturating_add(1);
        let awaited = self.awaited(&event);
        let answer = self.gate.step(event);
        if let Some(arrival) = awaited {
            self.tell(arrival);
        }
        if self.mail == Mail::IsFetched && !is_parked(&answer) {
            self.gate.tell();
        }
        answer
    }

    fn wait(&mut self, conn: Conn) -> Option<Reply> {
        self.carry();
        let found = self.gate.look(conn);
        self.leave_to_others();
        match found {
            Some(reply) => Some(reply),
            None => self.gate.wait(conn),
        }
    }

    fn release(&mut self) {
        self.steps = 0;
        self.gate.release();
    }
}

impl<'n, C: HasLinks<R> + Drop, R: Clock + Wait + Copy> SharedGate for SeeingGate<'n, C, R> {
    type Asks = Asks<C::Cluster>;

    ghost asked_by = { λ asks. asks };

    fn swap_asks(&mut self, asks: &mut Asks<C::Cluster>) {
        self.gate.swap_asks(asks);
    }

    fn look(&mut self, conn: Conn) -> Option<Reply> {
        self.gate.look(conn)
    }

    fn give_way(&mut self) {
        if self.steps >= MOST_STEPS {
            self.let_in();
        }
    }

    fn unlock(&mut self) {
        self.let_in();
    }

    fn send(&mut self) {
        self.let_in();
        if self.gate.take_left() {
            let called = send(
                &self.rt,
                self.alloc,
                self.cluster,
                self.number,
                Replies::AreTold,
            );
            self.cluster.call(called);
        }
    }

    fn carry(&mut self) {
        self.let_in();
        if self.gate.take_left() {
            carry_at_once(&self.rt, self.alloc, self.cluster, self.number);
        }
    }

    fn leave_to_others(&mut self) {
        self.gate.ring_for_replies();
        self.release();
    }

    fn is_closed(&self) -> bool {
        self.node.shared.is_closed()
    }
}

// Whether the reply to the request comes later.
fn is_parked<S: Answered>(answer: &Result<S, StepFault>) -> bool {
    match answer {
        Ok(step) => matches!(step.response(), Response::Parked),
        Err(_) => false,
    }
}
