//! What a cluster consists of from its start.
ghost use Rattle.std.specs.Prelude.{◌≡◌, ◌++◌, IfOk, OnOk, slice_get, option_copied};
ghost use Rattle.cluster_config.specs.Config.{IsCluster, cluster_with, first_owners, runs_of};

use crate::names::{Host, NodeId};
use key_slot::SlotRange;
use slot_table::{NodeNo, Run};
use std::alloc::{AllocError, Global};
use std::marker::Model;

/// The slots that a master has at the start.
#[derive(Clone, Debug, Drop)]
pub struct SlotRanges {
    /// The ranges in order.
    pub ranges: Vec<SlotRange>,
}

impl Model for SlotRanges {
    ghost use Rattle.std.specs.Prelude.{List};
    ghost use Rattle.key_slot.specs.declared.slots.SlotRange.{SlotRange};

    ghost Value = { List SlotRange };

    ghost view = { λ slots. slots.ranges.items };
}

/// What a node is at the start.
#[derive(Clone, Debug, Drop)]
pub enum Role {
    /// It owns these slots, which may be none.
    Master {
        /// The slots.
        slots: SlotRanges,
    },
    /// It copies a master.
    Replica {
        /// The number of that master.
        of: NodeNo,
    },
}

/// A node of the cluster.
#[derive(Clone, Debug, Drop)]
pub struct NodeConfig {
    /// Its id.
    pub id: NodeId,
    /// Where clients reach it.
    pub host: Host,
    /// The port there.
    pub port: u16,
    /// What it is at the start.
    pub role: Role,
}

/// A cluster: its nodes by their numbers, who votes, its times, and how much of its stream a node keeps.
#[derive(Debug)]
pub struct Config {
    tick_ms: u32,
    node_timeout: u32,
    backlog: u32,
    nodes: Vec<NodeConfig>,
    voters: Vec<NodeNo>,
}

impl Model for Config {
    ghost use Rattle.cluster_config.specs.Config.{ClusterConfig, IsCluster};

    ghost Value = { ClusterConfig };

    ghost view = { λ config. record {
      tick_ms = config.tick_ms;
      node_timeout = config.node_timeout;
      backlog = config.backlog;
      nodes = config.nodes.items;
      voters = config.voters.items;
    } };

    ghost invariant = { λ config. IsCluster (record {
      tick_ms = config.tick_ms;
      node_timeout = config.node_timeout;
      backlog = config.backlog;
      nodes = config.nodes.items;
      voters = config.voters.items;
    }) };
}

impl Drop for Config {
    fn drop(self) {
        let Config {
            tick_ms: _,
            node_timeout: _,
            backlog: _,
            nodes: _,
            voters: _,
        } = self;
    }
}

impl Config {
    /// The cluster with ticks of so many milliseconds, of which a node may be silent for so many, with these nodes and voters. A node keeps
    /// so many of the last bytes of its stream.
    pub fn new(
        tick_ms: u32,
        node_timeout: u32,
        backlog: u32,
        nodes: Vec<NodeConfig>,
        voters: Vec<NodeNo>,
    ) -> Config
        requires { IsCluster (cluster_with tick_ms node_timeout backlog nodes.items voters.items) }
        ensures { result ≡ cluster_with tick_ms node_timeout backlog nodes.items voters.items }
    {
        Config {
            tick_ms,
            node_timeout,
            backlog,
            nodes,
            voters,
        }
    }

    /// The length of a tick, in milliseconds.
    pub fn tick_ms(&self) -> u32
        ensures { result ≡ self.now.tick_ms }
    {
        self.tick_ms
    }

    /// How many ticks a node may be silent.
    pub fn node_timeout(&self) -> u32
        ensures { result ≡ self.now.node_timeout }
    {
        self.node_timeout
    }

    /// How many of the last bytes of its stream of writes a node keeps.
    pub fn backlog(&self) -> u32
        ensures { result ≡ self.now.backlog }
    {
        self.backlog
    }

    /// The nodes by their numbers, 1 to 16 of them.
    pub fn nodes(&self) -> &[NodeConfig]
        ensures nodes { result.now ≡ self.now.nodes }
        ensures cluster { IsCluster self.now }
    {
        self.nodes.as_slice()
    }

    /// The node of that number, if there is one.
    pub fn node(&self, number: NodeNo) -> Option<&NodeConfig>
        ensures { option_copied result ≡ slice_get self.now.nodes number }
    {
        self.nodes.get(number.index())
    }

    /// The numbers of the nodes that vote, in the order of the text.
    pub fn voters(&self) -> &[NodeNo]
        ensures voters { result.now ≡ self.now.voters }
        ensures cluster { IsCluster self.now }
    {
        self.voters.as_slice()
    }

    /// Who owns which slots as the cluster starts: node by node, and range by range as the text has them.
    pub fn first_owners(&self, alloc: Global) -> Result<Vec<Run<NodeNo>>, AllocError>
        ensures { IfOk result (λ runs. runs.items ≡ first_owners self.now) }
    {
        let mut runs = Vec::new(alloc);
        for (at, node) in self.nodes.iter().enumerate() {
            let owner = NodeNo::new(at as u8).unwrap();
            add_runs(&mut runs, owner, &node.role)?;
        }
        Ok(runs)
    }
}

// The slots of the node go to the end of the list.
fn add_runs(runs: &mut Vec<Run<NodeNo>>, owner: NodeNo, role: &Role) -> Result<(), AllocError>
    ensures { OnOk result (runs.new.items ≡ runs.old.items ++ runs_of owner role.now) }
{
    if let Role::Master { slots } = role {
        for range in &slots.ranges {
            runs.push(Run {
                slots: *range,
                value: owner,
            })?;
        }
    }
    Ok(())
}

impl Clone for Config {
    ghost is_clone = { λ config copy. copy ≡ config };

    fn clone(&self) -> Result<Config, AllocError> {
        Ok(Config {
            tick_ms: self.tick_ms,
            node_timeout: self.node_timeout,
            backlog: self.backlog,
            nodes: self.nodes.clone()?,
            voters: self.voters.clone()?,
        })
    }
}
