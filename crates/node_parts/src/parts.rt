//! The parts of a node.
ghost use Rattle.std.specs.Prelude.{◌≡◌, ◌==◌, IfOk, None, is_some, slice_index_or};
ghost use Rattle.std.specs.FinMap as fin_map;
ghost use Rattle.std.specs.List.{list_any};
ghost use Rattle.node_step.specs.State.{first_id, first_masters, first_state, kept_in, master_in};

use crate::electing::ElectionState;
use crate::masters::{first_at, first_masters};
use bus::{Handing, StreamId};
use cluster_config::{Config, NodeConfig, Role};
use connections::Connections;
use repl_stream::{NodeStream, Stream};
use slot_state::SlotMoves;
use slot_store::SlotParts;
use slot_table::{Epoch, NodeNo, SlotTable};
use std::alloc::{AllocError, Global};
use std::marker::Model;

/// What a node holds. The crates of a step's rows read it; only a draft that is made changes it.
pub struct NodeParts<S: SlotParts, T: Stream> {
    /// Where its memory comes from.
    pub alloc: Global,
    /// The cluster.
    pub config: Config,
    /// The node's own number.
    pub number: NodeNo,
    /// The keys with their values.
    pub store: S,
    /// Who owns which slot, as far as the node knows.
    pub table: SlotTable,
    /// The moves of slots that it takes part in.
    pub moves: SlotMoves,
    /// What it knows of epochs and of the other nodes, and its part in elections.
    pub election: ElectionState,
    /// The replica that it hands its slots over to, if it does.
    pub paused: Option<NodeNo>,
    /// Whether it asks its master to hand over.
    pub asks_master: bool,
    /// What its master hands over, as far as the master told.
    pub note: Option<Handing>,
    /// The stream of its writes, or what it has of its master's.
    pub stream: NodeStream<T>,
    /// The connections of its clients.
    pub connections: Connections,
}

impl<S: SlotParts, T: Stream> Model for NodeParts<S, T> {
    ghost use Rattle.std.specs.Prelude.{◌≡◌, length, take};
    ghost use Rattle.node_step.specs.CodedState.{coded_state};
    ghost use Rattle.node_step.specs.State.{NodeState};

    ghost Value = { NodeState };

    ghost coded = { coded_state };

    ghost view = { λ parts. record {
      config = parts.config;
      number = parts.number;
      keyspace = S.contents parts.store;
      table = parts.table;
      moves = parts.moves;
      current_epoch = parts.election.current_epoch;
      masters = take (length parts.config.nodes) parts.election.masters;
      health = parts.election.health;
      voter = parts.election.voter;
      candidate = parts.election.candidate;
      paused = parts.paused;
      handover = record { asked = parts.asks_master; note = parts.note; begun = parts.election.begun };
      stream = parts.stream.stream;
      replaced = parts.election.replaced;
      connections = parts.connections;
    } };

    ghost use Rattle.node_step.specs.State.{kept_in};

    ghost invariant = { λ parts.
        (length parts.table ≡ 16384) × (parts.stream.keeps ≡ kept_in parts.config) };
}

impl<S: SlotParts + Drop, T: Stream + Drop> Drop for NodeParts<S, T> {
    fn drop(self) {
        let NodeParts {
            alloc: _,
            config: _,
            number: _,
            store: _,
            table: _,
            moves: _,
            election: _,
            paused: _,
            asks_master: _,
            note: _,
            stream: _,
            connections: _,
        } = self;
    }
}

impl<S: SlotParts, T: Stream> NodeParts<S, T> {
    /// Those of the node of that number over an empty store, as it begins.
    pub fn new(
        alloc: Global,
        config: Config,
        number: NodeNo,
        store: S,
    ) -> Result<NodeParts<S, T>, AllocError>
    where
        S: Drop,
        T: Drop,
        requires { S.contents store ≡ fin_map.empty }
        ensures { IfOk result (λ parts. parts ≡ first_state config number) }
    {
        let owners = config.first_owners(alloc)?;
        let table = SlotTable::new(alloc, owners.as_slice())?;
        let masters = first_masters(&config);
        let id = first_id(&config, number);
        let stream = NodeStream::begin(alloc, id, kept_bytes(&config))?;
        Ok(NodeParts {
            alloc,
            config,
            number,
            store,
            table,
            moves: SlotMoves::new(alloc),
            election: ElectionState::first(masters),
            paused: None,
            asks_master: false,
            note: None,
            stream,
            connections: Connections::new(alloc),
        })
    }

    /// Whether the node keeps no byte of its stream: there is no replica that could ask for it.
    pub fn keeps_none(&self) -> bool
        ensures { result ≡ (kept_in self.now.config == 0) }
    {
        self.stream.keeps_none()
    }

    /// Keeps the claim of this node, which ticks share until the table changes.
    pub fn keep_claim(&mut self) -> Result<(), AllocError>
        ensures { self.new ≡ self.old }
    {
        self.table.keep_claim_of(self.alloc, self.number)
    }
}

// How many of the last bytes of its stream a node keeps: only replicas ask for them.
fn kept_bytes(config: &Config) -> usize
    ensures { result ≡ kept_in config.now }
{
    if has_replica(config.nodes()) {
        config.backlog() as usize
    } else {
        0
    }
}

fn has_replica(nodes: &[NodeConfig]) -> bool
    ensures { result ≡ list_any (λ node. is_some (master_in node.role)) nodes.now }
{
    nodes.iter().any(|node| is_replica(node))
}

fn is_replica(node: &NodeConfig) -> bool
    ensures { result ≡ is_some (master_in node.now.role) }
{
    match node.role {
        Role::Replica { .. } => true,
        Role::Master { .. } => false,
    }
}

// The stream with which the node of that number begins: its master's, or its own.
fn first_id(config: &Config, number: NodeNo) -> StreamId
    ensures { result
        ≡ first_id (slice_index_or (first_masters config.now.nodes) number None) number }
{
    StreamId {
        node: first_at(config.nodes(), number.index()).unwrap_or(number),
        epoch: Epoch::new(0),
    }
}
