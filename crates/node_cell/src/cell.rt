//! A node with its journal and its seat at the tickets.
ghost use Rattle.std.specs.Prelude.{◌≡◌, ◌<◌, ◌==◌, ◌++◌, [], All, length, not, true, Err, IfOk, IfErr, IfNone, IfSome, OnErr, OnOk, vec_len, vec_capacity};
ghost use Rattle.std.specs.VecDeque.{deque_len, deque_capacity};
ghost use Rattle.std.specs.List.{list_any};
ghost use Rattle.tickets.specs.Tickets.{IsFresh, IsSeatOf};
ghost use Rattle.step_fault.specs.declared.fault.StepFault.TheVariants.{Exhausted};
ghost use Rattle.node_step.specs.Released.{reply_to};
ghost use Rattle.cell_parts.specs.Undelivered.{joined, undelivered_after};
ghost use Rattle.node_step.specs.declared.event.Event.TheVariants.{Deliver};
ghost use Rattle.cell_parts.specs.Journal.{Advances, Enters, HasHistory, IsGiven, IsNotTaken, IsReachable, IsRefused, IsSent, Makes, Rises, Skips, comes_in_time, tickets_of};
ghost use Rattle.node_cell.specs.Cells.{IsReplyGiven, first_cell, without_reply};
ghost use Rattle.node_gate.specs.Asks.{IsOwn};

use crate::entered::Entered;
use crate::posted::{Posted, Sending};
use cell_parts::{DeliveryFault, Deployment, Log, add_released, has_some, take_reply_to};
use cluster_config::Config;
use node_core::{Conn, Core, Event, Messages, Outputs, Releases, StepFault};
use resp_values::Reply;
use slot_table::NodeNo;
use std::alloc::{AllocError, Global};
use std::collections::VecDeque;
use std::marker::{Model, PhantomData};
use std::snapshot::Snapshot;
use tickets::Seat;

/// A node of the cluster `K`, with all that it ever did in the log `L`: an entry a step.
pub struct NodeCell<K: Deployment, L: Log> {
    config: Config,
    node: NodeNo,
    core: Core,
    log: L,
    // An item for each step that gave some, until they are taken.
    undelivered: Vec<Releases>,
    outbox: VecDeque<Sending<K>>,
    seat: Seat,
    cluster: PhantomData<K>,
}

impl<K: Deployment, L: Log> Model for NodeCell<K, L> {
    ghost use Rattle.std.specs.Prelude.{◌≡◌, ◌<◌, All, length};
    ghost use Rattle.node_step.specs.CodedState.{coded_state};
    ghost use Rattle.std.specs.Coded.{codes};
    ghost use Rattle.tickets.specs.Tickets.{drawn, table_of, seats_of};
    ghost use Rattle.node_step.specs.State.{first_state};
    ghost use Rattle.cell_parts.specs.Journal.{CellView, IsGiven, IsJournal};
    ghost use Rattle.cell_parts.specs.Undelivered.{joined};

    ghost Value = { CellView };

    ghost coded = { Prim.hlevel (codes, coded_state) };

    ghost view = { λ cell. record { config = cell.config; node = cell.node; state = cell.core; journal = L.entries cell.log; undelivered = joined cell.undelivered.items; outbox = joined cell.outbox.items } };

    ghost invariant = { λ cell. IsJournal (first_state cell.config cell.node) (L.entries cell.log) cell.core (drawn cell.seat)
        × All (IsGiven (L.entries cell.log)) (joined cell.undelivered.items)
        × (cell.config ≡ K.config) × (table_of cell.seat ≡ K.table) × (seats_of cell.seat ≡ K.seats)
        × (cell.node < length cell.config.nodes) };
}

impl<K: Deployment, L: Log + Drop> Drop for NodeCell<K, L> {
    fn drop(self) {
        let NodeCell {
            config: _,
            node: _,
            core: _,
            log: _,
            undelivered: _,
            outbox: _,
            seat: _,
            cluster: _,
        } = self;
    }
}

impl<K: Deployment, L: Log> NodeCell<K, L> {
    /// The node of this number, which is one of the configuration, as it begins, with a seat of its cluster that has drawn nothing.
    pub fn new(
        alloc: Global,
        config: &Config,
        node: NodeNo,
        seat: Seat,
    ) -> Result<NodeCell<K, L>, AllocError>
        requires cluster { config.now ≡ K.config }
        requires number { node < length config.now.nodes }
        requires seat { IsFresh K.table K.seats seat }
        ensures { IfOk result (λ cell. cell ≡ first_cell config.now node) }
    {
        let core = Core::begin(alloc, config.clone()?, node)?;
        Ok(NodeCell {
            config: config.clone()?,
            node,
            core,
            log: L::new(alloc),
            undelivered: Vec::new(alloc),
            outbox: VecDeque::new(alloc),
            seat,
            cluster: PhantomData,
        })
    }

    /// Makes the node's step for an event that is no message, as [`Asks`](crate::Asks) has it made.
    #[inline(always)]
    pub(crate) fn apply(&mut self, event: Event) -> Result<Entered<K>, StepFault>
        requires own { IsOwn event }
        ensures cluster { self.old.config ≡ K.config }
        ensures number { self.old.node < length self.old.config.nodes }
        ensures history { HasHistory self.old }
        ensures ok { IfOk result (λ entered. Enters self.old event entered self.new) }
        ensures err { IfErr result (λ fault. IsRefused self.old event fault self.new) }
    {
        match self.take_event(event) {
            Ok(entered) => Ok(entered),
            Err(DeliveryFault::Refused(fault)) => Err(fault),
            Err(DeliveryFault::Early) => unreachable!(),
        }
    }

    /// Delivers a message to the node: one ticket, one step, one entry, as for any other event. The message is one that a step of
    /// a node of this cluster sent, as its type says.
    ///
    /// A message is older than its delivery. One that isn't, as the tickets tell it, is `Early`, and its ticket is entered as
    /// skipped.
    pub fn deliver(&mut self, posted: Posted<K>) -> Result<Entered<K>, DeliveryFault>
        ensures ok { IfOk result (λ entered. Enters self.old (Deliver posted) entered self.new) }
        ensures err { IfErr result (λ fault. IsNotTaken self.old (Deliver posted) fault self.new) }
    {
        self.take_event(Event::Deliver(posted.into_message()))
    }

    #[inline(always)]
    fn take_event(&mut self, event: Event) -> Result<Entered<K>, DeliveryFault>
        ensures cluster { self.old.config ≡ K.config }
        ensures number { self.old.node < length self.old.config.nodes }
        ensures history { HasHistory self.old }
        ensures ok { IfOk result (λ entered. Enters self.old event entered self.new) }
        ensures err { IfErr result (λ fault. IsNotTaken self.old event fault self.new) }
    {
        // Room comes before the ticket: one that is drawn has to be entered.
        make_room(&mut self.log, &mut self.undelivered, &mut self.outbox)?;
        let Some(ticket) = self.seat.draw() else {
            return Err(DeliveryFault::Refused(StepFault::Exhausted));
        };
        if !comes_in_time(ticket, &event) {
            self.log.enter_skip(ticket);
            return Err(DeliveryFault::Early);
        }
        match advance(
            &mut self.core,
            &mut self.log,
            &mut self.undelivered,
            &mut self.outbox,
            ticket,
            event,
        ) {
            Ok(entered) => Ok(entered),
            Err(fault) => Err(DeliveryFault::Refused(fault)),
        }
    }

    /// The configuration of its cluster.
    pub fn config(&self) -> &Config
        ensures same { result.now ≡ self.now.config }
        ensures cluster { self.now.config ≡ K.config }
    {
        &self.config
    }

    /// The number of the node in the configuration of its cluster.
    pub fn number(&self) -> NodeNo
        ensures { result ≡ self.now.node }
    {
        self.node
    }

    /// The node as its last step left it.
    pub fn core(&self) -> &Core
        ensures { result.now ≡ self.now.state }
    {
        &self.core
    }

    /// Takes the first reply that waits for the connection, as [`Asks`](crate::Asks) has it taken.
    pub(crate) fn take_reply(&mut self, conn: Conn) -> Option<Reply>
        ensures cluster { self.old.config ≡ K.config }
        ensures number { self.old.node < length self.old.config.nodes }
        ensures history { HasHistory self.old }
        ensures given { IfSome result (IsReplyGiven self.old.journal conn) }
        ensures reply { result ≡ reply_to conn self.old.undelivered }
        ensures left { self.new ≡ without_reply conn self.old }
    {
        take_reply_to(&mut self.undelivered, conn)
    }

    /// Whether there are replies that nobody has taken yet.
    pub fn has_undelivered(&self) -> bool
        ensures { result ≡ not (length self.now.undelivered == 0) }
    {
        has_some(self.undelivered.as_slice())
    }

    /// Whether messages were sent that nobody has taken yet.
    pub fn has_sent(&self) -> bool
        ensures { result ≡ not (length self.now.outbox == 0) }
    {
        has_message(&self.outbox)
    }

    /// Takes the messages of the first step whose messages nobody has taken yet.
    pub fn take_sent(&mut self) -> Option<Sending<K>>
        ensures sent { IfSome result (λ sending. self.old.outbox ≡ sending ++ self.new.outbox) }
        ensures none { IfNone result ((self.old.outbox ≡ []) × (self.new.outbox ≡ [])) }
        ensures left { self.new ≡ record self.old { outbox = self.new.outbox } }
    {
        self.outbox.pop_front()
    }

    /// The configuration, the node's number, its log and its seat.
    pub fn finish(self) -> (Config, NodeNo, L, Seat)
        ensures parts { (result.0 ≡ self.config) × (result.1 ≡ self.node)
            × (L.entries result.2 ≡ self.journal) }
        ensures cluster { self.config ≡ K.config }
        ensures number { self.node < length self.config.nodes }
        ensures history { HasHistory self }
        ensures rises { Rises (tickets_of self.journal) }
        ensures seat { IsSeatOf K.table K.seats (tickets_of self.journal) result.3 }
    {
        let NodeCell {
            config,
            node,
            core: _,
            log,
            undelivered: _,
            outbox: _,
            seat,
            cluster: _,
        } = self;
        (config, node, log, seat)
    }
}

// Makes room for what one step adds.
fn make_room<K: Deployment, L: Log>(
    log: &mut L,
    undelivered: &mut Vec<Releases>,
    outbox: &mut VecDeque<Sending<K>>,
) -> Result<(), AllocError>
    ensures room { OnOk result (L.has_room log.new) }
    ensures undelivered_room { OnOk result
        (vec_len undelivered.new < vec_capacity undelivered.new) }
    ensures outbox_room { OnOk result (deque_len outbox.new < deque_capacity outbox.new) }
    ensures log { L.entries log.new ≡ L.entries log.old }
    ensures undelivered { undelivered.new.items ≡ undelivered.old.items }
    ensures outbox { outbox.new.items ≡ outbox.old.items }
{
    log.reserve()?;
    undelivered.reserve(1)?;
    outbox.reserve(1)
}

// Whether the event may take place under the ticket: a message comes under a greater one than that of the step that sent it.
fn comes_in_time(ticket: u64, event: &Event) -> bool
    ensures { result ≡ comes_in_time ticket event.now }
{
    match event {
        Event::Deliver(message) => message.ticket < ticket,
        Event::Open | Event::Close(_) | Event::Request(_, _) | Event::Tick => true,
    }
}

// Makes the step and enters it, or enters the ticket as skipped.
#[inline(always)]
fn advance<K: Deployment, L: Log>(
    core: &mut Core,
    log: &mut L,
    undelivered: &mut Vec<Releases>,
    outbox: &mut VecDeque<Sending<K>>,
    ticket: u64,
    event: Event,
) -> Result<Entered<K>, StepFault>
    requires in_time { comes_in_time ticket event ≡ true }
    requires reachable { IsReachable K.config (L.entries log.old) core.old }
    requires log { L.has_room log.old }
    requires undelivered { vec_len undelivered.old < vec_capacity undelivered.old }
    requires outbox { deque_len outbox.old < deque_capacity outbox.old }
    ensures entered { Advances core.old (L.entries log.old) ticket core.new (L.entries log.new) }
    ensures ok { IfOk result (λ entered.
        Makes core.old (L.entries log.old) ticket event entered core.new (L.entries log.new)) }
    ensures undelivered { IfOk result (λ entered. joined undelivered.new.items
        ≡ undelivered_after event (joined undelivered.old.items) entered.outputs.released) }
    ensures outbox { IfOk result
        (λ entered. joined outbox.new.items ≡ joined outbox.old.items ++ entered.outputs.sent) }
    ensures err { IfErr result (λ fault.
        Skips core.old (L.entries log.old) ticket event fault core.new (L.entries log.new)) }
    ensures given { All (IsGiven (L.entries log.old)) (joined undelivered.old.items)
        → All (IsGiven (L.entries log.new)) (joined undelivered.new.items) }
    ensures rest { OnErr result ((joined undelivered.new.items ≡ joined undelivered.old.items)
        × (joined outbox.new.items ≡ joined outbox.old.items)) }
{
    let asked = Snapshot::of(&event);
    match core.step::<L>(ticket, &event) {
        Ok((outputs, seen)) => {
            let gave = Snapshot::of(&outputs);
            let Outputs {
                ticket,
                response,
                released,
                sent,
                promoted: _,
            } = outputs;
            add_released(undelivered, &event, released);
            put_out(outbox, sent);
            log.enter_step(event, seen);
            Ok(Entered::new(asked, gave, ticket, response))
        }
        Err(fault) => {
            log.enter_skip(ticket);
            Err(fault)
        }
    }
}

// Puts the messages of a step behind those that wait. There has to be room.
#[inline(always)]
fn put_out<K: Deployment>(outbox: &mut VecDeque<Sending<K>>, sent: Messages)
    requires room { deque_len outbox.old < deque_capacity outbox.old }
    requires sent { All (IsSent K.config) sent }
    ensures { joined outbox.new.items ≡ joined outbox.old.items ++ sent }
{
    if sent.as_slice().is_empty() {
        return;
    }
    let sending = Sending::new(sent.into_vec(*outbox.allocator()));
    let Ok(()) = outbox.push_back(sending) else {
        unreachable!();
    };
}

// Whether a message is among those of the steps.
fn has_message<K: Deployment>(outbox: &VecDeque<Sending<K>>) -> bool
    ensures { result ≡ list_any (λ part. not (length part == 0)) outbox.now.items }
{
    outbox.iter().any(|sending| is_some(sending))
}

fn is_some<K: Deployment>(sending: &Sending<K>) -> bool
    ensures { result ≡ not (length sending.now == 0) }
{
    !sending.is_empty()
}
