//! The nodes of a world, and what they do.
ghost use Rattle.std.specs.Prelude.{◌≡◌, ◌+◌, ◌<◌, ◌≤◌, ◌++◌, ◌∷◌, [], true, false, length, replicate, reverse, slice_set, IfOk, OnOk, OnErr};
ghost use Rattle.node_step.specs.declared.event.Event.TheVariants.{Open, Close, Request, Deliver, Tick};
ghost use Rattle.node_step.specs.State.{first_state};
ghost use Rattle.world_run.specs.Run.{MayHappen, first_nodes};
ghost use Rattle.world_run.specs.Run.Deed.{Made};
ghost use Rattle.world_nodes.specs.Allowed.{MayTake};
ghost use Rattle.world_nodes.specs.Entered.{EntersAt, IfMade, IfSkipped, SkipsAt};
ghost use Rattle.world_nodes.specs.NodeSteps.{Administers, Closes, Delivers, IsAdministered, IsHeard, IsUnasked, Makes, Reaches, Skips, Ticks, beside_of_step, is_admin, is_admin_name, message_at, released_conns, replied_conns, shown_of_step};
ghost use Rattle.world_nodes.specs.Nodes.{GoesOn, RemembersSent, first_run, is_up};

use crate::entries::Entries;
use crate::output::{Output, add_promotion, add_released, add_sent, exhausted, nothing, with_own};
use bus::Message;
use cluster_config::Config;
use connections::Conn;
use node_core::{Core, Event, Outputs, Release, Response};
use resp_values::Words;
use slot_table::NodeNo;
use std::alloc::{AllocError, Global};
use std::marker::Model;

/// The nodes of a world, the messages that they sent, and what they did.
#[derive(Drop)]
pub struct Run {
    alloc: Global,
    nodes: Vec<Core>,
    stopped: Vec<bool>,
    sent: Vec<Message>,
    entries: Entries,
}

impl Model for Run {
    ghost use Rattle.node_step.specs.CodedState.{coded_state};
    ghost use Rattle.std.specs.Coded.{codes};
    ghost use Rattle.world_nodes.specs.Nodes.{RunView};

    ghost Value = { RunView };

    ghost coded = { Prim.hlevel (codes, coded_state) };

    ghost view = { λ run. record { nodes = run.nodes.items; stopped = run.stopped.items; sent = run.sent.items; entries = run.entries } };
}

impl Run {
    /// The nodes of a cluster as they begin.
    pub fn new(alloc: Global, config: &Config) -> Result<Run, AllocError>
        ensures { IfOk result (λ run. run ≡ first_run config.now) }
    {
        Ok(Run {
            alloc,
            nodes: first_nodes(alloc, config)?,
            stopped: none_stopped(alloc, config.nodes().len())?,
            sent: Vec::new(alloc),
            entries: Entries::new(),
        })
    }

    /// An administrator asks this of a node, on a connection of its own.
    pub fn admin(&mut self, node: u64, words: &Words) -> Result<Vec<Output>, AllocError>
        requires { RemembersSent self.old }
        ensures goes_on { GoesOn self.old self.new }
        ensures remembers { OnOk result (RemembersSent self.new) }
        ensures administers { IfOk result
            (λ out. Administers self.old node words.now out.items self.new) }
    {
        if self.is_up(node) && is_admin(words) {
            self.ask_node(node, words)
        } else {
            nothing(self.alloc)
        }
    }

    /// Time passes at a node.
    pub fn tick(&mut self, node: u64) -> Result<Vec<Output>, AllocError>
        requires { RemembersSent self.old }
        ensures goes_on { GoesOn self.old self.new }
        ensures remembers { OnOk result (RemembersSent self.new) }
        ensures ticks { IfOk result (λ out. Ticks self.old node out.items self.new) }
    {
        if self.is_up(node) {
            self.step_node(node, Event::Tick)
        } else {
            nothing(self.alloc)
        }
    }

    /// A node stops for good.
    pub fn stop(&mut self, node: u64)
        requires { is_up self.old node ≡ true }
        ensures stops { self.new
            ≡ record self.old { stopped = slice_set self.old.stopped node true } }
    {
        self.stopped[node as usize] = true;
    }

    /// A message reaches the node that it is for.
    #[tactic(auto, using(crate::proofs::Going::may_arrive))]
    pub fn deliver(&mut self, number: u64) -> Result<Vec<Output>, AllocError>
        requires { RemembersSent self.old }
        ensures goes_on { GoesOn self.old self.new }
        ensures remembers { OnOk result (RemembersSent self.new) }
        ensures delivers { IfOk result (λ out. Delivers self.old number out.items self.new) }
    {
        let Some(message) = self.message(number)? else {
            return nothing(self.alloc);
        };
        let node = u64::from(message.to.get());
        if self.is_up(node) {
            self.step_node(node, Event::Deliver(message))
        } else {
            nothing(self.alloc)
        }
    }

    /// The node is there, and wasn't stopped.
    pub fn is_up(&self, node: u64) -> bool
        ensures { result ≡ is_up self.now node }
    {
        node < self.nodes.len() as u64 && !self.stopped.get(node as usize).copied().unwrap_or(true)
    }

    // A copy of the message of that number.
    fn message(&self, number: u64) -> Result<Option<Message>, AllocError>
        ensures { IfOk result (λ message. message ≡ message_at self.now.sent number) }
    {
        let Some(before) = number.checked_sub(1) else {
            return Ok(None);
        };
        match self.sent.get(before as usize) {
            Some(message) => Ok(Some(message.clone()?)),
            None => Ok(None),
        }
    }

    // A step of a node for an event that no connection asked for, and what comes out of it.
    #[tactic(auto, using(crate::proofs::Allowing::unasked_may_come))]
    fn step_node(&mut self, node: u64, event: Event) -> Result<Vec<Output>, AllocError>
        requires remembers { RemembersSent self.old }
        requires there { node < length self.old.nodes }
        requires may { MayHappen (reverse self.old.entries) event }
        requires unasked { IsUnasked event }
        ensures goes_on { GoesOn self.old self.new }
        ensures remembers { OnOk result (RemembersSent self.new) }
        ensures reaches { IfOk result (λ out. Reaches self.old node event out.items self.new) }
    {
        let first = self.sent.len();
        let Some(made) = self.make(node, event)? else {
            return Ok(Vec::new(self.alloc));
        };
        self.finish(node, first, &made)
    }

    // Closes the connections that got their replies by a step of the node, and shows what came out of it. The messages from that
    // place on are those of the step.
    fn finish(&mut self, node: u64, first: usize, made: &Outputs) -> Result<Vec<Output>, AllocError>
        requires there { node < length self.old.nodes }
        requires first { first ≤ length self.old.sent }
        ensures goes_on { GoesOn self.old self.new }
        ensures remembers { OnOk result (RemembersSent self.old → RemembersSent self.new) }
        ensures closes { OnOk result
            (Closes self.old node (released_conns made.now.released) self.new) }
        ensures shows { IfOk result (λ out. out.items ≡ shown_of_step node first self.old made.now) }
    {
        let beside = self.finish_beside(node, first, made)?;
        with_own(self.alloc, node, &made.response, beside)
    }

    // A request on a connection of its own, and what comes out of it.
    #[tactic(auto, using(crate::proofs::Allowing::opened_may_ask))]
    fn ask_node(&mut self, node: u64, words: &Words) -> Result<Vec<Output>, AllocError>
        requires remembers { RemembersSent self.old }
        requires there { node < length self.old.nodes }
        ensures goes_on { GoesOn self.old self.new }
        ensures remembers { OnOk result (RemembersSent self.new) }
        ensures asks { IfOk result
            (λ out. IsAdministered self.old node words.now out.items self.new) }
    {
        let Some(opening) = self.make(node, Event::Open)? else {
            return exhausted(self.alloc, node);
        };
        let Response::Opened(conn) = opening.response else {
            unreachable!();
        };
        self.request(node, conn, words)
    }

    // A request on a connection that was opened for it.
    fn request(&mut self, node: u64, conn: Conn, words: &Words) -> Result<Vec<Output>, AllocError>
        requires remembers { RemembersSent self.old }
        requires there { node < length self.old.nodes }
        requires asks { MayTake self.old node (Request conn words.now) }
        ensures goes_on { GoesOn self.old self.new }
        ensures remembers { OnOk result (RemembersSent self.new) }
        ensures asks { IfOk result
            (λ out. IsHeard self.old node conn words.now out.items self.new) }
    {
        let first = self.sent.len();
        let event = Event::Request(conn, words.clone()?);
        let Some(made) = self.make(node, event)? else {
            self.close(node, conn)?;
            return exhausted(self.alloc, node);
        };
        self.finish_request(node, conn, first, &made)
    }

    // The same after a step for a request on that connection, which is closed too if the reply came.
    fn finish_request(
        &mut self,
        node: u64,
        conn: Conn,
        first: usize,
        made: &Outputs,
    ) -> Result<Vec<Output>, AllocError>
        requires there { node < length self.old.nodes }
        requires first { first ≤ length self.old.sent }
        ensures goes_on { GoesOn self.old self.new }
        ensures remembers { OnOk result (RemembersSent self.old → RemembersSent self.new) }
        ensures closes { OnOk result (Closes self.old node (replied_conns conn made.now) self.new) }
        ensures shows { IfOk result (λ out. out.items ≡ shown_of_step node first self.old made.now) }
    {
        let outputs = self.outputs(node, first, made)?;
        self.close_served(node, conn, made)?;
        Ok(outputs)
    }

    // Closes the connections that got their replies by a step for a request.
    fn close_served(&mut self, node: u64, conn: Conn, made: &Outputs) -> Result<(), AllocError>
        requires there { node < length self.old.nodes }
        ensures goes_on { GoesOn self.old self.new }
        ensures remembers { OnOk result (RemembersSent self.old → RemembersSent self.new) }
        ensures closes { OnOk result (Closes self.old node (replied_conns conn made.now) self.new) }
    {
        if let Response::Replied(_) = made.response {
            self.close(node, conn)?;
        }
        self.close_all(node, made.released.as_slice())
    }

    /// Closes the connections that got these replies.
    pub(crate) fn close_all(&mut self, node: u64, releases: &[Release]) -> Result<(), AllocError>
        requires there { node < length self.old.nodes }
        ensures goes_on { GoesOn self.old self.new }
        ensures remembers { OnOk result (RemembersSent self.old → RemembersSent self.new) }
        ensures closes { OnOk result (Closes self.old node (released_conns releases.now) self.new) }
    {
        for release in releases {
            self.close(node, release.conn)?;
        }
        Ok(())
    }

    /// Closes a connection at the node.
    pub fn close(&mut self, node: u64, conn: Conn) -> Result<(), AllocError>
        requires there { node < length self.old.nodes }
        ensures goes_on { GoesOn self.old self.new }
        ensures there { length self.new.nodes ≡ length self.old.nodes }
        ensures remembers { OnOk result (RemembersSent self.old → RemembersSent self.new) }
        ensures closes { OnOk result (Closes self.old node (conn ∷ []) self.new) }
    {
        let Some(_closed) = self.make(node, Event::Close(conn))? else {
            unreachable!();
        };
        Ok(())
    }

    /// Has the node make its step for the event. None says that it needs a number that has no next one, and made no step.
    pub(crate) fn make(&mut self, node: u64, event: Event) -> Result<Option<Outputs>, AllocError>
        requires there { node < length self.old.nodes }
        requires may { MayHappen (reverse self.old.entries) event }
        requires asks { MayTake self.old node event }
        ensures goes_on { GoesOn self.old self.new }
        ensures there { length self.new.nodes ≡ length self.old.nodes }
        ensures remembers { OnOk result (RemembersSent self.old → RemembersSent self.new) }
        ensures made { IfMade result (λ outputs. Makes self.old node event outputs self.new) }
        ensures skipped { IfSkipped result (Skips self.old node event self.new) }
    {
        self.make_for(node, &event)
    }

    fn make_for(&mut self, node: u64, event: &Event) -> Result<Option<Outputs>, AllocError>
        requires there { node < length self.old.nodes }
        requires may { MayHappen (reverse self.old.entries) event.now }
        requires asks { MayTake self.old node event.now }
        ensures goes_on { GoesOn self.old self.new }
        ensures there { length self.new.nodes ≡ length self.old.nodes }
        ensures remembers { OnOk result (RemembersSent self.old → RemembersSent self.new) }
        ensures made { IfMade result (λ outputs. Makes self.old node event.now outputs self.new) }
        ensures skipped { IfSkipped result (Skips self.old node event.now self.new) }
    {
        let Some(outputs) = step_at(&mut self.nodes, &mut self.entries, node, event)? else {
            return Ok(None);
        };
        remember(&mut self.sent, outputs.sent.as_slice())?;
        Ok(Some(outputs))
    }

    // What comes out of a step of the node, where the messages from that place on are those of the step.
    fn outputs(&self, node: u64, first: usize, made: &Outputs) -> Result<Vec<Output>, AllocError>
        requires { first ≤ length self.now.sent }
        ensures { IfOk result (λ out. out.items ≡ shown_of_step node first self.now made.now) }
    {
        let beside = self.beside(node, first, made)?;
        with_own(self.alloc, node, &made.response, beside)
    }

    /// What comes out of a step of the node beside the reply to its request, where the messages from that place on are those
    /// of the step.
    pub(crate) fn beside(
        &self,
        node: u64,
        first: usize,
        made: &Outputs,
    ) -> Result<Vec<Output>, AllocError>
        requires { first ≤ length self.now.sent }
        ensures { IfOk result (λ out. out.items ≡ beside_of_step node first self.now made.now) }
    {
        let mut outputs = Vec::new(self.alloc);
        add_released(&mut outputs, node, made.released.as_slice())?;
        add_sent(&mut outputs, self.sent.as_slice(), first)?;
        add_promotion(&mut outputs, node, &made.promoted)?;
        Ok(outputs)
    }

    /// What memory is taken from.
    pub fn allocator(&self) -> Global {
        self.alloc
    }

    /// How many messages were sent.
    pub(crate) fn count_sent(&self) -> usize
        ensures { result ≡ length self.now.sent }
    {
        self.sent.len()
    }
}

// Has the node of that number make its step for the event.
fn step_at(
    nodes: &mut Vec<Core>,
    entries: &mut Entries,
    node: u64,
    event: &Event,
) -> Result<Option<Outputs>, AllocError>
    requires there { node < length nodes.old.items }
    requires may { MayHappen (reverse entries.old) event.now }
    ensures made { IfMade result
        (λ outputs. EntersAt entries.old nodes.old.items node
        (Made event.now outputs) entries.new nodes.new.items) }
    ensures skipped { IfSkipped result
        (SkipsAt entries.old nodes.old.items node event.now entries.new nodes.new.items) }
    ensures err { OnErr result ((nodes.new.items ≡ nodes.old.items) × (entries.new ≡ entries.old)) }
{
    match entries.step(&mut nodes[node as usize], node, event) {
        Ok(Some(outputs)) => Ok(Some(outputs)),
        Ok(None) => Ok(None),
        Err(fault) => Err(fault),
    }
}

// Remembers messages behind the others.
fn remember(sent: &mut Vec<Message>, messages: &[Message]) -> Result<(), AllocError>
    ensures { OnOk result (sent.new.items ≡ sent.old.items ++ messages.now) }
{
    for message in messages {
        sent.push(message.clone()?)?;
    }
    Ok(())
}

// The nodes of a cluster as they begin.
fn first_nodes(alloc: Global, config: &Config) -> Result<Vec<Core>, AllocError>
    ensures { IfOk result (λ nodes. nodes.items ≡ first_nodes config.now) }
{
    let mut nodes = Vec::new(alloc);
    for at in 0..config.nodes().len() {
        nodes.push(first_node(alloc, config, at as u8)?)?;
    }
    Ok(nodes)
}

// The node of that number as it begins.
fn first_node(alloc: Global, config: &Config, at: u8) -> Result<Core, AllocError>
    requires { at < 16 }
    ensures { IfOk result (λ core. core ≡ first_state config.now at) }
{
    let number = NodeNo::new(at).unwrap();
    Core::begin(alloc, config.clone()?, number)
}

fn none_stopped(alloc: Global, count: usize) -> Result<Vec<bool>, AllocError>
    ensures { IfOk result (λ stopped. stopped.items ≡ replicate count false) }
{
    let mut stopped = Vec::new(alloc);
    for _at in 0..count {
        stopped.push(false)?;
    }
    Ok(stopped)
}

// The first word is CLUSTER or MIGRATE, in letters of any case.
fn is_admin(words: &Words) -> bool
    ensures { result ≡ is_admin words.now }
{
    is_admin_name(words.name().as_slice())
}

fn is_admin_name(name: &[u8]) -> bool
    ensures { result ≡ is_admin_name name.now }
{
    name.eq_ignore_ascii_case(b"cluster") || name.eq_ignore_ascii_case(b"migrate")
}
