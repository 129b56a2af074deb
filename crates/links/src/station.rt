//! A node with its ends of the links to all nodes.
ghost use Rattle.std.specs.Prelude.{◌≡◌, ◌⊎◌, [], drop, false, length, map, IfNone, IfOk, IfSome, OnOk};
ghost use Rattle.std.specs.List.{list_any};
ghost use Rattle.link_ends.specs.Ends.{AreEndsOf};
ghost use Rattle.links.specs.Pace.{are_many};
ghost use Rattle.links.specs.Ports.{PortView};
ghost use Rattle.links.specs.Stations.{ArrivesSome, GivesNone, IsSentOut, IsStation, Loses, OnlySends, SendsNothing, end_of, port_of, said_of};

use crate::not_taken::NotTaken;
use crate::port::Port;
use crate::web::Web;
use cluster_config::Config;
use link_ends::{Act, LinkEnd, PortEnd, PortEnds};
use node_cell::{
    Asks, DeliveryFault, Deployment, Entered, HoldsCell, Log, NodeCell, Posted, Sending,
};
use node_core::{Conn, Core, Event, StepFault};
use resp_values::Reply;
use slot_table::NodeNo;
use std::alloc::{AllocError, Global};
use std::marker::{Model, PhantomData};

/// A node of the cluster `K`, whose journal is an `L`, with its ends of the links `W` to all nodes.
///
/// What its steps send goes over these links alone, in order, and it takes no message but those that it receives there. Its type keeps
/// that, so that it is known of each station behind a lock. One thread receives and sends; others may ask the node meanwhile.
///
/// Its ends are plain ones, or have a bad network in front of them ([`PortEnd`]).
pub struct Station<K: Deployment, W: Web, L: Log, E: PortEnd<Carried = Posted<K>>> {
    cell: NodeCell<K, L>,
    // By the number of the node at the other end.
    ports: Vec<Port<K, E>>,
    // The messages of a step that are not at their ports yet, since memory was refused.
    unsorted: Sending<K>,
    web: PhantomData<W>,
}

impl<K: Deployment, W: Web, L: Log, E: PortEnd<Carried = Posted<K>>> Model for Station<K, W, L, E> {
    ghost use Rattle.node_step.specs.CodedState.{coded_state};
    ghost use Rattle.std.specs.Coded.{codes};
    ghost use Rattle.links.specs.Stations.{IsStation, StationView};

    ghost Value = { StationView };

    ghost coded = { Prim.hlevel (codes, coded_state) };

    ghost view = { λ station.
        record { cell = station.cell; ports = station.ports.items; unsorted = station.unsorted } };

    ghost invariant = { λ station. IsStation W.links (record { cell = station.cell; ports = station.ports.items; unsorted = station.unsorted }) };
}

impl<K: Deployment, W: Web, L: Log + Drop, E: PortEnd<Carried = Posted<K>>> Drop
    for Station<K, W, L, E> {
    fn drop(self) {
        let Station {
            cell: _,
            ports: _,
            unsorted: _,
            web: _,
        } = self;
    }
}

impl<K: Deployment, W: Web, L: Log + Drop, E: PortEnd<Carried = Posted<K>>> Station<K, W, L, E> {
    /// The node of this cell, which has done nothing yet, with an unused end of its link with each node.
    pub fn new(
        alloc: Global,
        cell: NodeCell<K, L>,
        ends: PortEnds<E>,
    ) -> Result<Station<K, W, L, E>, AllocError>
        requires journal { cell.journal ≡ [] }
        requires outbox { cell.outbox ≡ [] }
        requires ends { AreEndsOf W.links cell.node (length cell.config.nodes) ends }
        ensures { IfOk result (λ station. station.cell ≡ cell) }
    {
        let ports = ports_at(alloc, ends.into_vec())?;
        Ok(Station {
            cell,
            ports,
            unsorted: Sending::none(alloc),
            web: PhantomData,
        })
    }

    /// The configuration of its cluster.
    pub fn config(&self) -> &Config
        ensures same { result.now ≡ self.now.cell.config }
        ensures cluster { self.now.cell.config ≡ K.config }
    {
        self.cell.config()
    }

    /// The number of the node in the configuration of its cluster.
    pub fn number(&self) -> NodeNo
        ensures { result ≡ self.now.cell.node }
    {
        self.cell.number()
    }

    /// Receives the next message from the node with that number, if one has come, and delivers it to the cell. A sync of a replica that needs
    /// no answer is lost instead, as any message may be.
    pub fn receive(&mut self, from: usize) -> Option<Result<Entered<K>, NotTaken>>
        ensures some { IfSome result (ArrivesSome self.old from self.new) }
        ensures none { IfNone result ((self.new ≡ self.old) ⊎ GivesNone self.old from self.new) }
    {
        let port = self.ports.get_mut(from)?;
        let posted = port.try_receive()?;
        if port.is_needless(&posted) {
            return Some(Err(NotTaken::Needless));
        }
        let delivered = self.cell.deliver(posted);
        Some(said_of(delivered))
    }

    /// Receives the next message from the node with that number, if one has come, and delivers it to nobody: the node loses it, as
    /// it may on any network.
    pub fn lose(&mut self, from: usize) -> Option<Posted<K>>
        ensures some { IfSome result (λ posted. Loses self.old from posted self.new) }
        ensures none { IfNone result ((self.new ≡ self.old) ⊎ GivesNone self.old from self.new) }
    {
        let port = self.ports.get_mut(from)?;
        let posted = port.try_receive()?;
        Some(posted)
    }

    /// Whether the link from the node with that number is half full. A node that has messages which found no room there waits until it
    /// is told that this is so.
    pub fn is_half_full(&mut self, from: usize) -> bool
        ensures { self.new ≡ self.old }
    {
        from < self.ports.len() && self.ports[from].is_half_full()
    }

    /// The next act that a bad network did to a message from the node with that number and that wasn't told yet, for a log.
    pub fn tell_act(&mut self, from: usize) -> Option<Act>
        ensures { self.new ≡ self.old }
    {
        if from >= self.ports.len() {
            return None;
        }
        self.ports[from].tell_act()
    }

    /// Whether more messages wait for a link of the node than should, or more bytes of streams: then whoever has it make more does well
    /// to wait until some are sent.
    pub fn is_behind(&self) -> bool
        ensures { result ≡ list_any (λ (port : PortView). are_many port.waiting) self.now.ports }
    {
        self.ports.iter().any(|port| port.is_behind())
    }

    /// Sends as many of the messages for the node with that number as the link to it has room for, and says whether there was one. The
    /// others wait. It fails where there is no memory to put them where they wait.
    pub fn send_out(&mut self, rt: &E::Handle, to: usize) -> Result<bool, AllocError>
        ensures sends { OnlySends self.old self.new }
        ensures none { IfOk result (λ has_sent. has_sent ≡ false → SendsNothing self.old self.new) }
        ensures sorted { IfOk result (λ _. (self.new.unsorted ≡ []) × (self.new.cell.outbox ≡ [])) }
        ensures left { OnOk result (IsSentOut self.new.ports to) }
    {
        let sorted = self.sort(rt);
        let has_sent = self.send_to(to);
        sorted?;
        Ok(has_sent)
    }

    // Sends the messages that wait for the node, as far as there is room, and says whether there was one.
    fn send_to(&mut self, to: usize) -> bool
        ensures sends { OnlySends self.old self.new }
        ensures none { result ≡ false → SendsNothing self.old self.new }
        ensures cell { (self.new.cell ≡ self.old.cell) × (self.new.unsorted ≡ self.old.unsorted) }
        ensures left { IsSentOut self.new.ports to }
    {
        to < self.ports.len() && self.ports[to].send_all()
    }

    // Puts the messages that were sent where they wait for their links.
    fn sort(&mut self, rt: &E::Handle) -> Result<(), AllocError>
        ensures sends { OnlySends self.old self.new }
        ensures unsent { SendsNothing self.old self.new }
        ensures sorted { OnOk result ((self.new.unsorted ≡ []) × (self.new.cell.outbox ≡ [])) }
    {
        for _ in rt.forever() {
            self.sort_step()?;
            if !self.take_step() {
                return Ok(());
            }
        }
        unreachable!()
    }

    // Takes the messages of the next step out of the cell, if there are any. None may be left of the step before.
    fn take_step(&mut self) -> bool
        requires { self.old.unsorted ≡ [] }
        ensures sends { OnlySends self.old self.new }
        ensures unsent { SendsNothing self.old self.new }
        ensures none { result ≡ false → (self.new.unsorted ≡ []) × (self.new.cell.outbox ≡ []) }
    {
        match self.cell.take_sent() {
            Some(sending) => {
                self.unsorted = sending;
                true
            }
            None => false,
        }
    }

    // Puts all messages of a step to their ports.
    fn sort_step(&mut self) -> Result<(), AllocError>
        ensures sends { OnlySends self.old self.new }
        ensures unsent { SendsNothing self.old self.new }
        ensures sorted { OnOk result (self.new.unsorted ≡ []) }
    {
        for _ in 0..self.unsorted.len() {
            self.sort_first()?;
        }
        Ok(())
    }

    // Puts the first of them to its port. A message for no node of the cluster is let go.
    fn sort_first(&mut self) -> Result<(), AllocError>
        ensures sends { OnlySends self.old self.new }
        ensures unsent { SendsNothing self.old self.new }
        ensures sorted { OnOk result (self.new.unsorted ≡ drop 1 self.old.unsorted) }
    {
        let Some(to) = self.unsorted.first_to() else {
            return Ok(());
        };
        let to = to.index();
        if to < self.ports.len() {
            return self.ports[to].take_from(&mut self.unsorted);
        }
        self.unsorted.let_go();
        Ok(())
    }

    /// The cell, and the ends of its links by the number of the other node.
    pub fn finish(
        self,
        alloc: Global,
    ) -> Result<(NodeCell<K, L>, Vec<LinkEnd<Posted<K>, E::Handle>>), AllocError>
        ensures cell { IfOk result (λ parts. parts.0 ≡ self.cell) }
        ensures cluster { self.cell.config ≡ K.config }
        ensures ends { IfOk result (λ parts. parts.1.items ≡ map end_of self.ports) }
        ensures station { IsStation W.links self }
    {
        let Station {
            cell,
            ports,
            unsorted: _,
            web: _,
        } = self;
        let ends = ends_of(alloc, ports)?;
        Ok((cell, ends))
    }
}

// What is said of a message that was delivered so.
fn said_of<K: Deployment>(
    delivered: Result<Entered<K>, DeliveryFault>,
) -> Result<Entered<K>, NotTaken>
    ensures { result ≡ said_of delivered }
{
    match delivered {
        Ok(entered) => Ok(entered),
        Err(fault) => Err(NotTaken::Refused(fault)),
    }
}

// Ports at these ends.
fn ports_at<K: Deployment, E: PortEnd<Carried = Posted<K>>>(
    alloc: Global,
    ends: Vec<E>,
) -> Result<Vec<Port<K, E>>, AllocError>
    ensures { IfOk result (λ ports. ports.items ≡ map (λ end. port_of (E.giving end)) ends.items) }
{
    let mut ports = Vec::with_capacity(alloc, ends.len())?;
    for end in ends {
        ports.push(Port::new(alloc, end)).map_err(AllocError::from)?;
    }
    Ok(ports)
}

// The ends of these ports.
fn ends_of<K: Deployment, E: PortEnd<Carried = Posted<K>>>(
    alloc: Global,
    ports: Vec<Port<K, E>>,
) -> Result<Vec<LinkEnd<Posted<K>, E::Handle>>, AllocError>
    ensures { IfOk result (λ ends. ends.items ≡ map end_of ports.items) }
{
    let mut ends = Vec::with_capacity(alloc, ports.len())?;
    for port in ports {
        ends.push(port.into_end()).map_err(AllocError::from)?;
    }
    Ok(ends)
}

impl<K: Deployment, W: Web, L: Log + Drop, E: PortEnd<Carried = Posted<K>>> HoldsCell
    for Station<K, W, L, E> {
    type Cluster = K;

    ghost cell = { λ station. station.cell };

    fn ask(&mut self, asks: &mut Asks<K>, event: Event) -> Result<Entered<K>, StepFault> {
        asks.ask_node(&mut self.cell, event)
    }

    fn take_reply(&mut self, asks: &mut Asks<K>, conn: Conn) -> Option<Reply> {
        asks.take_reply(&mut self.cell, conn)
    }

    fn core(&self) -> &Core {
        self.cell.core()
    }

    fn has_undelivered(&self) -> bool {
        self.cell.has_undelivered()
    }

    fn has_sent(&self) -> bool {
        self.cell.has_sent()
    }
}
