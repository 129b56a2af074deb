//! A client of a world: what it knows, and what is under way between it and the nodes.
ghost use Rattle.std.specs.Prelude.{◌≡◌, ◌∷◌, ◌++◌, [], true, slice_get, replicate, None, IfOk, OnOk};
ghost use Rattle.smart_client.specs.Calls.{IsWaiting};
ghost use Rattle.world_nodes.specs.Nodes.{GoesOn, RemembersSent, is_up};
ghost use Rattle.world_nodes.specs.declared.output.Output.TheVariants.{Answer};
ghost use Rattle.world.specs.Asking.{MayArrive, MayBeCarried, MayLinger};
ghost use Rattle.world.specs.Calls.{Acts, Arrives, Begins, CanDo, Carries, Connects, Cuts, GivesUp, IsConnected, IsShut, Lingers, MayUse, Returns, Tells, Uses, told_of};
ghost use Rattle.world.specs.Clients.{AwaitsConnection, AwaitsReply, IsSettled, broken_off, connection_to, is_at, leads_to, left_late, lost_at, lost_by, new_client, node_at, place_at, stopped_at, used_by, with_connection, without_late};
ghost use Rattle.world.specs.declared.client.Traffic.TheVariants.{Quiet};

use cluster_config::{Config, NodeConfig};
use connections::Conn;
use redirection::Address;
use resp_values::{Reply, Words};
use smart_client::{Action, ClientCore, ClientFault, Event};
use std::alloc::{AllocError, Global};
use std::marker::Model;
use std::mem;
use world_nodes::{Link, Output, Run, Served, nothing, one};

/// How often a client's call begins again for TRYAGAIN.
pub(crate) const MOST_REPEATS: u64 = 16;

/// What is under way between a client and a node.
#[derive(Drop)]
pub(crate) enum Traffic {
    /// Nothing: no call is under way.
    Quiet,
    /// A request, which didn't reach its node yet.
    Asked(Link, Words),
    /// A reply, which didn't reach the client yet.
    Answered(Link, Reply),
}

/// A request that is still under way on a connection that was cut.
#[derive(Drop)]
pub(crate) struct Late {
    pub link: Link,
    pub words: Words,
}

/// A client of a world.
#[derive(Drop)]
pub(crate) struct Client {
    number: u64,
    core: ClientCore,
    // For each node the connection to it.
    pool: Vec<Option<Conn>>,
    traffic: Traffic,
    // The oldest stands first.
    late: Vec<Late>,
}

impl Model for Client {
    ghost use Rattle.world.specs.Clients.{ClientView};

    ghost Value = { ClientView };

    ghost view = { λ client. record {
      number = client.number;
      core = client.core;
      pool = client.pool.items;
      traffic = client.traffic;
      late = client.late.items;
    } };
}

impl Client {
    /// A client that begins at the node with the number 0.
    pub(crate) fn new(alloc: Global, config: &Config, number: u64) -> Result<Client, AllocError>
        ensures { IfOk result (λ client. client ≡ new_client config.now number) }
    {
        let start = first_address(config)?;
        Ok(Client {
            number,
            core: ClientCore::new(alloc, start, MOST_REPEATS)?,
            pool: empty_pool(alloc, config.nodes().len())?,
            traffic: Traffic::Quiet,
            late: Vec::new(alloc),
        })
    }

    /// The number of the client.
    pub(crate) fn number(&self) -> u64
        ensures { result ≡ self.now.number }
    {
        self.number
    }

    /// Begins a call, if none is under way.
    #[tactic(auto, using(crate::proofs::Wanted::may_begin, crate::proofs::Wanted::may_call))]
    pub(crate) fn call(
        &mut self,
        run: &mut Run,
        config: &Config,
        words: &Words,
    ) -> Result<Vec<Output>, AllocError>
        requires settled { IsSettled self.old }
        requires remembers { RemembersSent run.old }
        ensures goes_on { GoesOn run.old run.new }
        ensures remembers { OnOk result (RemembersSent run.new) }
        ensures settled { OnOk result (IsSettled self.new) }
        ensures begins { IfOk result
            (λ out. Begins config.now.nodes words.now run.old self.old out.items run.new self.new) }
    {
        if !matches!(self.traffic, Traffic::Quiet) {
            return nothing(run.allocator());
        }
        let words = words.clone()?;
        let action = self.core.on(Event::Call(words));
        self.act(run, config, None, action)
    }

    /// What the client sent reaches its node.
    pub(crate) fn carry(&mut self, run: &mut Run) -> Result<Vec<Output>, AllocError>
        requires settled { IsSettled self.old }
        requires remembers { RemembersSent run.old }
        requires asks { MayBeCarried run.old self.old.traffic }
        ensures goes_on { GoesOn run.old run.new }
        ensures remembers { OnOk result (RemembersSent run.new) }
        ensures settled { OnOk result (IsSettled self.new) }
        ensures carries { IfOk result (λ out. Carries run.old self.old out.items run.new self.new) }
    {
        match mem::replace(&mut self.traffic, Traffic::Quiet) {
            Traffic::Asked(link, words) => {
                if run.is_up(link.node) {
                    return self.arrive(run, link, words);
                }
                self.put(Traffic::Asked(link, words));
                nothing(run.allocator())
            }
            traffic => {
                self.put(traffic);
                nothing(run.allocator())
            }
        }
    }

    /// The reply that waits reaches the client, which acts.
    #[tactic(auto, using(crate::proofs::Wanted::may_be_replied))]
    pub(crate) fn take_reply(
        &mut self,
        run: &mut Run,
        config: &Config,
    ) -> Result<Vec<Output>, AllocError>
        requires settled { IsSettled self.old }
        requires remembers { RemembersSent run.old }
        ensures goes_on { GoesOn run.old run.new }
        ensures remembers { OnOk result (RemembersSent run.new) }
        ensures settled { OnOk result (IsSettled self.new) }
        ensures returns { IfOk result
            (λ out. Returns config.now.nodes run.old self.old out.items run.new self.new) }
    {
        match mem::replace(&mut self.traffic, Traffic::Quiet) {
            Traffic::Answered(link, reply) => {
                let action = self.core.on(Event::Reply(reply));
                self.act(run, config, Some(link), action)
            }
            traffic => {
                self.put(traffic);
                nothing(run.allocator())
            }
        }
    }

    /// The connection in use is cut.
    pub(crate) fn cut(&mut self, run: &mut Run) -> Result<Vec<Output>, AllocError>
        requires settled { IsSettled self.old }
        requires remembers { RemembersSent run.old }
        ensures goes_on { GoesOn run.old run.new }
        ensures remembers { OnOk result (RemembersSent run.new) }
        ensures settled { OnOk result (IsSettled self.new) }
        ensures cuts { IfOk result (λ out. Cuts run.old self.old out.items run.new self.new) }
    {
        match mem::replace(&mut self.traffic, Traffic::Quiet) {
            Traffic::Quiet => nothing(run.allocator()),
            Traffic::Asked(link, words) => self.cut_request(run, link, words),
            Traffic::Answered(link, _) => self.cut_reply(run, link),
        }
    }

    // The connection is cut while a request is under way on it, which may still come late.
    fn cut_request(
        &mut self,
        run: &mut Run,
        link: Link,
        words: Words,
    ) -> Result<Vec<Output>, AllocError>
        requires awaits { AwaitsReply self.old.core.call }
        ensures run { run.new ≡ run.old }
        ensures settled { OnOk result (IsSettled self.new) }
        ensures broken { OnOk result (self.new ≡ left_late link words self.old) }
        ensures lost { IfOk result (λ out. out.items ≡ lost_by self.old) }
    {
        self.late.push(Late { link, words })?;
        one(run.allocator(), self.break_off(link.node))
    }

    // The connection is cut while a reply is under way on it, which is lost.
    fn cut_reply(&mut self, run: &mut Run, link: Link) -> Result<Vec<Output>, AllocError>
        requires awaits { AwaitsReply self.old.core.call }
        requires remembers { RemembersSent run.old }
        ensures goes_on { GoesOn run.old run.new }
        ensures remembers { OnOk result (RemembersSent run.new) }
        ensures settled { OnOk result (IsSettled self.new) }
        ensures shut { OnOk result (IsShut run.old link run.new) }
        ensures broken { OnOk result (self.new ≡ broken_off link.node self.old) }
        ensures lost { IfOk result (λ out. out.items ≡ lost_by self.old) }
    {
        shut(run, link)?;
        one(run.allocator(), self.break_off(link.node))
    }

    /// The oldest request on a connection that was cut reaches its node.
    pub(crate) fn come_late(&mut self, run: &mut Run) -> Result<Vec<Output>, AllocError>
        requires settled { IsSettled self.old }
        requires remembers { RemembersSent run.old }
        requires asks { MayLinger run.old self.old.late }
        ensures goes_on { GoesOn run.old run.new }
        ensures remembers { OnOk result (RemembersSent run.new) }
        ensures settled { OnOk result (IsSettled self.new) }
        ensures lingers { IfOk result (λ out. Lingers run.old self.old out.items run.new self.new) }
    {
        if self.late.is_empty() || !run.is_up(self.late[0].link.node) {
            return nothing(run.allocator());
        }
        let Late { link, words } = self.late.remove(0);
        run.serve_last(link.node, link.conn, words)
    }

    /// The node stopped: the connections to it break, with what was under way on them.
    pub(crate) fn stop(&mut self, node: u64, outputs: &mut Vec<Output>) -> Result<(), AllocError>
        requires settled { IsSettled self.old }
        ensures settled { IsSettled self.new }
        ensures stopped { self.new ≡ stopped_at node self.old }
        ensures outputs { OnOk result
            (outputs.new.items ≡ outputs.old.items ++ lost_at node self.old) }
    {
        self.forget_late(node);
        if !self.uses(node) {
            return Ok(());
        }
        outputs.push(self.break_off(node))?;
        Ok(())
    }

    // No late request reaches the node any more.
    fn forget_late(&mut self, node: u64)
        ensures { self.new ≡ without_late node self.old }
    {
        self.late.retain(|late| late.link.node != node);
    }

    // From now on this is under way.
    fn put(&mut self, traffic: Traffic)
        ensures { self.new ≡ record self.old { traffic = traffic } }
    {
        self.traffic = traffic;
    }

    // Whether the connection in use leads to the node.
    fn uses(&self, node: u64) -> bool
        ensures { result ≡ leads_to node (used_by self.now.traffic) }
    {
        match &self.traffic {
            Traffic::Quiet => false,
            Traffic::Asked(link, _) | Traffic::Answered(link, _) => link.node == node,
        }
    }

    // The request reaches its node.
    #[tactic(auto, using(crate::proofs::Readying::arriving_may_be_taken))]
    fn arrive(&mut self, run: &mut Run, link: Link, words: Words) -> Result<Vec<Output>, AllocError>
        requires quiet { self.old.traffic ≡ Quiet }
        requires awaits { AwaitsReply self.old.core.call }
        requires remembers { RemembersSent run.old }
        requires up { is_up run.old link.node ≡ true }
        requires may { MayArrive run.old link words }
        ensures goes_on { GoesOn run.old run.new }
        ensures remembers { OnOk result (RemembersSent run.new) }
        ensures settled { OnOk result (IsSettled self.new) }
        ensures arrives { IfOk result
            (λ out. Arrives run.old self.old link words out.items run.new self.new) }
    {
        let Served { reply, outputs } = run.serve(link.node, link.conn, words)?;
        let Some(reply) = reply else {
            unreachable!();
        };
        self.put(Traffic::Answered(link, reply));
        Ok(outputs)
    }

    // The connection in use, to that node, breaks.
    #[tactic(auto, using(crate::proofs::Wanted::may_break, crate::proofs::Wanted::is_lost))]
    fn break_off(&mut self, node: u64) -> Output
        requires awaits { AwaitsReply self.old.core.call }
        ensures broken { self.new ≡ broken_off node self.old }
        ensures settled { IsSettled self.new }
        ensures lost { result ∷ [] ≡ lost_by self.old }
    {
        self.put(Traffic::Quiet);
        self.put_connection(node, None);
        match self.core.on(Event::Broken { handed: true }) {
            Action::Done { answer, .. } => Output::Answer {
                client: self.number,
                answer,
            },
            _ => unreachable!(),
        }
    }

    // Does what the core wants, with the connection in use, if there is one.
    fn act(
        &mut self,
        run: &mut Run,
        config: &Config,
        link: Option<Link>,
        action: Action,
    ) -> Result<Vec<Output>, AllocError>
        requires quiet { self.old.traffic ≡ Quiet }
        requires remembers { RemembersSent run.old }
        requires waits { IsWaiting action self.old.core.call }
        requires can { CanDo link action }
        ensures goes_on { GoesOn run.old run.new }
        ensures remembers { OnOk result (RemembersSent run.new) }
        ensures settled { OnOk result (IsSettled self.new) }
        ensures acts { IfOk result
            (λ out. Acts config.now.nodes run.old self.old link action out.items run.new self.new) }
    {
        match action {
            Action::Connect(address) => self.connect(run, config, &address),
            action => self.use_connection(run, link, action),
        }
    }

    // Uses the connection to the address, the one that is kept or else a new one.
    fn connect(
        &mut self,
        run: &mut Run,
        config: &Config,
        address: &Address,
    ) -> Result<Vec<Output>, AllocError>
        requires quiet { self.old.traffic ≡ Quiet }
        requires remembers { RemembersSent run.old }
        requires awaits { AwaitsConnection self.old.core.call }
        ensures goes_on { GoesOn run.old run.new }
        ensures remembers { OnOk result (RemembersSent run.new) }
        ensures settled { OnOk result (IsSettled self.new) }
        ensures connects { IfOk result
            (λ out. Connects config.now.nodes run.old self.old address.now out.items run.new self.new) }
    {
        let node = node_at(config, address);
        let conn = self.reach_node(run, node)?;
        self.put_connection(node, conn);
        match conn {
            Some(conn) => self.tell(run, Some(Link { node, conn }), Event::Connected),
            None => self.tell(run, None, Event::NotConnected),
        }
    }

    // The connection to the node, if there can be one.
    fn reach_node(&self, run: &mut Run, node: u64) -> Result<Option<Conn>, AllocError>
        requires remembers { RemembersSent run.old }
        ensures goes_on { GoesOn run.old run.new }
        ensures remembers { OnOk result (RemembersSent run.new) }
        ensures connected { IfOk result
            (λ conn. IsConnected run.old node (connection_to self.now node) conn run.new) }
    {
        if !run.is_up(node) {
            return Ok(None);
        }
        match self.connection_to(node) {
            Some(conn) => Ok(Some(conn)),
            None => run.open(node),
        }
    }

    // The connection to the node.
    fn connection_to(&self, node: u64) -> Option<Conn>
        ensures { result ≡ connection_to self.now node }
    {
        self.pool.get(node as usize).copied().unwrap_or(None)
    }

    // From now on this is the connection to the node.
    fn put_connection(&mut self, node: u64, conn: Option<Conn>)
        ensures { self.new ≡ with_connection self.old node conn }
    {
        if let Some(place) = self.pool.get_mut(node as usize) {
            *place = conn;
        }
    }

    // Tells the core whether there is a connection, and does what it then wants of it.
    #[tactic(auto, using(crate::proofs::Wanted::may_use, crate::proofs::Wanted::may_be_told))]
    fn tell(
        &mut self,
        run: &mut Run,
        link: Option<Link>,
        event: Event,
    ) -> Result<Vec<Output>, AllocError>
        requires quiet { self.old.traffic ≡ Quiet }
        requires remembers { RemembersSent run.old }
        requires awaits { AwaitsConnection self.old.core.call }
        requires event { event ≡ told_of link }
        ensures goes_on { GoesOn run.old run.new }
        ensures remembers { OnOk result (RemembersSent run.new) }
        ensures settled { OnOk result (IsSettled self.new) }
        ensures tells { IfOk result
            (λ out. Tells run.old self.old link event out.items run.new self.new) }
    {
        let action = self.core.on(event);
        self.use_connection(run, link, action)
    }

    // Sends words on the connection in use, or ends the call.
    fn use_connection(
        &mut self,
        run: &mut Run,
        link: Option<Link>,
        action: Action,
    ) -> Result<Vec<Output>, AllocError>
        requires quiet { self.old.traffic ≡ Quiet }
        requires remembers { RemembersSent run.old }
        requires waits { IsWaiting action self.old.core.call }
        requires may { MayUse link action }
        ensures goes_on { GoesOn run.old run.new }
        ensures remembers { OnOk result (RemembersSent run.new) }
        ensures settled { OnOk result (IsSettled self.new) }
        ensures uses { IfOk result
            (λ out. Uses run.old self.old link action out.items run.new self.new) }
    {
        match action {
            Action::Connect(_) => unreachable!(),
            Action::Send(words) => {
                let Some(link) = link else {
                    unreachable!();
                };
                self.put(Traffic::Asked(link, words));
                Ok(Vec::new(run.allocator()))
            }
            Action::Done { answer, close } => self.tell_answer(run, link, answer, close),
        }
    }

    // The call is over, with this answer.
    fn tell_answer(
        &mut self,
        run: &mut Run,
        link: Option<Link>,
        answer: Result<Reply, ClientFault>,
        close: bool,
    ) -> Result<Vec<Output>, AllocError>
        requires remembers { RemembersSent run.old }
        ensures goes_on { GoesOn run.old run.new }
        ensures remembers { OnOk result (RemembersSent run.new) }
        ensures gives_up { OnOk result (GivesUp run.old self.old link close run.new self.new) }
        ensures answer { IfOk result (λ out. out.items ≡ Answer self.old.number answer ∷ []) }
    {
        self.end(run, link, close)?;
        let client = self.number;
        one(run.allocator(), Output::Answer { client, answer })
    }

    // The call is over, and its connection is closed where that is wanted.
    fn end(&mut self, run: &mut Run, link: Option<Link>, close: bool) -> Result<(), AllocError>
        requires remembers { RemembersSent run.old }
        ensures goes_on { GoesOn run.old run.new }
        ensures remembers { OnOk result (RemembersSent run.new) }
        ensures gives_up { OnOk result (GivesUp run.old self.old link close run.new self.new) }
    {
        let Some(link) = link else {
            return Ok(());
        };
        if close {
            shut(run, link)?;
            self.put_connection(link.node, None);
        }
        Ok(())
    }
}

// The node finds the connection closed, if it wasn't stopped.
fn shut(run: &mut Run, link: Link) -> Result<(), AllocError>
    requires { RemembersSent run.old }
    ensures goes_on { GoesOn run.old run.new }
    ensures remembers { OnOk result (RemembersSent run.new) }
    ensures shut { OnOk result (IsShut run.old link run.new) }
{
    if run.is_up(link.node) {
        run.close(link.node, link.conn)?;
    }
    Ok(())
}

// No connection to any of so many nodes.
fn empty_pool(alloc: Global, count: usize) -> Result<Vec<Option<Conn>>, AllocError>
    ensures pool { IfOk result (λ pool. pool.items ≡ replicate count None) }
{
    Ok(Vec::from_elem(alloc, None, count)?)
}

// The address of the node with the number 0.
fn first_address(config: &Config) -> Result<Address, AllocError>
    ensures { IfOk result (λ address. address ≡ place_at (slice_get config.now.nodes 0)) }
{
    let node = &config.nodes()[0];
    match Address::new(node.host.clone()?, node.port) {
        Some(address) => Ok(address),
        None => unreachable!(),
    }
}

// The number of the node at the address; where there is none, that behind the last one.
fn node_at(config: &Config, address: &Address) -> u64
    ensures { result ≡ node_at config.now.nodes address.now }
{
    let nodes = config.nodes();
    let found = nodes.iter().position(|node| is_at(node, address));
    found.unwrap_or(nodes.len()) as u64
}

fn is_at(node: &NodeConfig, address: &Address) -> bool
    ensures { result ≡ is_at address.now node.now }
{
    node.host.as_slice() == address.host().as_slice() && node.port == address.port()
}
