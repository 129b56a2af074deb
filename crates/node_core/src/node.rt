//! A node, and its steps.
ghost use Rattle.std.specs.Prelude.{◌≡◌, IfOk, OnErr, Err};
ghost use Rattle.std.specs.FinMap as fin_map;
ghost use Rattle.std.specs.Option.{option_copied};
ghost use Rattle.connections.specs.Connections.{IsUsedUp};
ghost use Rattle.keyspace.specs.Keyspace.{Keyspace};
ghost use Rattle.keyspace.specs.Plan.{committed};
ghost use Rattle.node_parts.specs.Drafts.{HasNothing};
ghost use Rattle.node_step.specs.Numbers.{NoNumberLeft};
ghost use Rattle.node_step.specs.State.{first_state, own_master};
ghost use Rattle.node_step.specs.Step.{NodeStep};
ghost use Rattle.slot_store.specs.InSlot.{in_slot};
ghost use Rattle.step_fault.specs.declared.fault.StepFault.TheVariants.{Exhausted};
ghost use Rattle.bus.specs.Stream.{received};
ghost use Rattle.node_core.specs.Comes.{Steps};

use crate::messages::take;
use crate::requests::request;
use crate::ticks::pass_tick;
use bus::{Handing, Message, Replaced};
use cluster_config::Config;
use connections::Conn;
use key_slot::Slot;
use node_parts::{Draft, NodeParts};
use node_step::{Event, Outputs, Recorder, Response, StepFault};
use repl_stream::{Backlog, Replaces, Stream};
use resp_values::Words;
use slot_state::SlotMoves;
use slot_store::{SlotParts, SlotStore};
use slot_table::{NodeNo, SlotTable};
use std::alloc::{AllocError, Global};
use std::marker::Model;
use step_making::{make, plain};

/// A node of the cluster: what it holds, and the steps that it takes.
#[derive(Drop)]
pub struct NodeCore<S: SlotParts, T: Stream> {
    parts: NodeParts<S, T>,
}

/// A node over the store in use, which keeps the last bytes of its stream.
pub type Core = NodeCore<SlotStore, Backlog>;

impl<S: SlotParts, T: Stream> Model for NodeCore<S, T> {
    ghost use Rattle.node_step.specs.CodedState.{coded_state};
    ghost use Rattle.node_step.specs.State.{NodeState};

    ghost Value = { NodeState };

    ghost coded = { coded_state };

    ghost view = { λ core. core.parts };
}

impl NodeCore<SlotStore, Backlog> {
    /// The node of that number as it begins, over an empty store.
    ///
    /// It keeps as many bytes of its stream as its configuration says, and none in a cluster without replicas, where nobody asks for them.
    pub fn begin(alloc: Global, config: Config, number: NodeNo) -> Result<Core, AllocError>
        ensures { IfOk result (λ core. core ≡ first_state config number) }
    {
        NodeCore::new(alloc, config, number, SlotStore::new(alloc)?)
    }
}

impl<S: SlotParts + Replaces, T: Stream> NodeCore<S, T> {
    /// The node of that number over an empty store, as it begins.
    pub fn new(
        alloc: Global,
        config: Config,
        number: NodeNo,
        store: S,
    ) -> Result<NodeCore<S, T>, AllocError>
    where
        T: Drop,
        requires { S.contents store ≡ fin_map.empty }
        ensures { IfOk result (λ core. core ≡ first_state config number) }
    {
        let parts = NodeParts::new(alloc, config, number, store)?;
        Ok(NodeCore { parts })
    }

    /// Who owns which slot, as far as the node knows.
    pub fn table(&self) -> &SlotTable
        ensures { result.now ≡ self.now.table }
    {
        &self.parts.table
    }

    /// The moves of slots that the node takes part in.
    pub fn moves(&self) -> &SlotMoves
        ensures { result.now ≡ self.now.moves }
    {
        &self.parts.moves
    }

    /// How many bytes the node has of a stream of writes: of its own, or of its master's.
    pub fn received(&self) -> u64
        ensures { result ≡ received self.now.stream }
    {
        self.parts.stream.received()
    }

    /// The master of the node, if it is a replica now.
    pub fn own_master(&self) -> Option<NodeNo>
        ensures { result ≡ own_master self.now }
    {
        self.parts.own_master()
    }

    /// Whose place the node took, if it was promoted.
    pub fn replaced(&self) -> Option<Replaced>
        ensures { result ≡ self.now.replaced }
    {
        self.parts.election.replaced
    }

    /// The replica that the node hands its slots over to, if it does.
    pub fn paused(&self) -> Option<NodeNo>
        ensures { result ≡ self.now.paused }
    {
        self.parts.paused
    }

    /// What the node's master hands over, if the node noted that.
    pub fn noted(&self) -> Option<&Handing>
        ensures { option_copied result ≡ self.now.handover.note }
    {
        self.parts.note.as_ref()
    }

    /// Whether the node's master hands its slots over for the election that the node began last.
    pub fn is_election_planned(&self) -> bool
        ensures { result ≡ self.now.candidate.planned }
    {
        self.parts.is_election_planned()
    }

    /// How many keys of the slot the node holds.
    pub fn count_in_slot(&self, slot: Slot) -> usize
        ensures { result ≡ fin_map.len (in_slot slot self.now.keyspace) }
    {
        self.parts.store.count_in_slot(slot)
    }

    /// Makes one step for the event. `ticket` is its number among the steps of all nodes.
    ///
    /// The result is what goes out of the node, and what `K` records of it: both are made before the state changes, so that
    /// nothing can fail after that. Memory and Exhausted leave the node as it was; Exhausted comes only where a number
    /// that only grows has no next one: the generation of a connection, the number of a copy, an epoch, or an offset.
    pub fn step<K: Recorder>(
        &mut self,
        ticket: u64,
        event: &Event,
    ) -> Result<(Outputs, K::Record), StepFault>
        ensures step { Steps ticket self.old event.now result self.new }
        ensures recorded { IfOk result (λ made. K.recorded made.1 ≡ made.0) }
        ensures err { OnErr result (self.new ≡ self.old) }
        ensures exhausted { result ≡ Err Exhausted → NoNumberLeft self.old event.now }
    {
        match event {
            Event::Open => self.open::<K>(ticket),
            Event::Close(conn) => Ok(self.close::<K>(ticket, *conn)),
            Event::Request(conn, words) => self.answer::<K>(ticket, *conn, words),
            Event::Deliver(message) => self.deliver::<K>(ticket, message),
            Event::Tick => self.tick::<K>(ticket),
        }
    }

    // Answers a request.
    #[inline(never)]
    fn answer<K: Recorder>(
        &mut self,
        ticket: u64,
        conn: Conn,
        words: &Words,
    ) -> Result<(Outputs, K::Record), StepFault>
        ensures step { Steps ticket self.old (Event.Request conn words.now) result self.new }
        ensures recorded { IfOk result (λ made. K.recorded made.1 ≡ made.0) }
        ensures err { OnErr result (self.new ≡ self.old) }
        ensures exhausted { result ≡ Err Exhausted
            → NoNumberLeft self.old (Event.Request conn words.now) }
    {
        // A draft is large, and has a place of its own at each end of a function that lets it go. So this function has one end.
        let mut draft = self.parts.blank();
        self.answer_by::<K>(ticket, conn, words, &mut draft)
    }

    // Answers a request by a blank draft.
    #[tactic(auto, using(crate::proofs::StepLemmas::answer_is_step, node_parts::proofs::ChangeLemmas::draft_can_be_made))]
    fn answer_by<K: Recorder>(
        &mut self,
        ticket: u64,
        conn: Conn,
        words: &Words,
        draft: &mut Draft,
    ) -> Result<(Outputs, K::Record), StepFault>
        requires nothing { HasNothing self.old draft.old }
        requires plan { (keyspace : Keyspace) → committed keyspace draft.old.plan ≡ keyspace }
        ensures step { Steps ticket self.old (Event.Request conn words.now) result self.new }
        ensures recorded { IfOk result (λ made. K.recorded made.1 ≡ made.0) }
        ensures err { OnErr result (self.new ≡ self.old) }
        ensures exhausted { result ≡ Err Exhausted
            → NoNumberLeft self.old (Event.Request conn words.now) }
    {
        request(&self.parts, conn, words, draft)?;
        Ok(make::<S, T, K>(&mut self.parts, ticket, draft)?)
    }

    // Takes a message, if it is for this node. What it tells of the others is put back where it is refused.
    #[inline(never)]
    fn deliver<K: Recorder>(
        &mut self,
        ticket: u64,
        message: &Message,
    ) -> Result<(Outputs, K::Record), StepFault>
        ensures step { Steps ticket self.old (Event.Deliver message.now) result self.new }
        ensures recorded { IfOk result (λ made. K.recorded made.1 ≡ made.0) }
        ensures err { OnErr result (self.new ≡ self.old) }
        ensures exhausted { result ≡ Err Exhausted
            → NoNumberLeft self.old (Event.Deliver message.now) }
    {
        if message.to != self.parts.number {
            return Ok(plain::<K>(ticket, Response::Nothing));
        }
        let before = self.parts.election();
        let dropped = self.parts.hear(message);
        let taken = take::<S, T, K>(&mut self.parts, ticket, message);
        if taken.is_ok() {
            return taken;
        }
        self.parts.put_back(before);
        self.parts.put_note_back(dropped);
        taken
    }

    // Lets a tick pass. What it counts is put back where it is refused.
    #[inline(never)]
    fn tick<K: Recorder>(&mut self, ticket: u64) -> Result<(Outputs, K::Record), StepFault>
        ensures step { Steps ticket self.old Event.Tick result self.new }
        ensures recorded { IfOk result (λ made. K.recorded made.1 ≡ made.0) }
        ensures err { OnErr result (self.new ≡ self.old) }
        ensures exhausted { result ≡ Err Exhausted → NoNumberLeft self.old Event.Tick }
    {
        let before = self.parts.election();
        let passed = pass_tick::<S, T, K>(&mut self.parts, ticket);
        if passed.is_err() {
            self.parts.put_back(before);
        }
        passed
    }

    #[inline(never)]
    fn open<K: Recorder>(&mut self, ticket: u64) -> Result<(Outputs, K::Record), StepFault>
        ensures step { Steps ticket self.old Event.Open result self.new }
        ensures recorded { IfOk result (λ made. K.recorded made.1 ≡ made.0) }
        ensures err { OnErr result (self.new ≡ self.old) }
        ensures exhausted { result ≡ Err Exhausted → IsUsedUp self.old.connections }
    {
        let conn = self.parts.connections.open()?;
        Ok(plain::<K>(ticket, Response::Opened(conn)))
    }

    #[inline(never)]
    fn close<K: Recorder>(&mut self, ticket: u64, conn: Conn) -> (Outputs, K::Record)
        ensures step { NodeStep ticket self.old (Event.Close conn) result.0 self.new }
        ensures recorded { K.recorded result.1 ≡ result.0 }
    {
        let _was_open = self.parts.connections.close(conn);
        plain::<K>(ticket, Response::Nothing)
    }
}
