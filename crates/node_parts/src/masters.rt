//! Who copies whom.
ghost use Rattle.std.specs.Prelude.{◌≡◌, ◌≤◌, length, map, slice_index_or, take, None};
ghost use Rattle.node_step.specs.Roles.{instead, succeeded};
ghost use Rattle.node_step.specs.State.{first_masters};
ghost use Rattle.node_parts.specs.Electing.{AgreeBelow};

use crate::parts::NodeParts;
use cluster_config::{Config, NodeConfig, Role};
use repl_stream::Stream;
use slot_store::SlotParts;
use slot_table::NodeNo;

// With which masters the cluster begins: that of each node in its place, and nothing in the places behind.
#[tactic(auto, using(crate::proofs::MasterLemmas::all_first))]
pub(crate) fn first_masters(config: &Config) -> [Option<NodeNo>; 16]
    ensures { take (length config.now.nodes) result ≡ first_masters config.now.nodes }
{
    let nodes = config.nodes();
    first_row(nodes)
}

// The same, place by place.
fn first_row(nodes: &[NodeConfig]) -> [Option<NodeNo>; 16]
    ensures whole { length result ≡ 16 }
    ensures each { AgreeBelow 16 result (first_masters nodes.now) }
{
    let mut row = [None; 16];
    for place in 0..16 {
        row[place] = first_at(nodes, place);
    }
    row
}

// The first master of the node in a place.
#[tactic(auto, using(crate::proofs::MasterLemmas::replica_has_master, crate::proofs::MasterLemmas::master_has_none, crate::proofs::MasterLemmas::unknown_has_no_master))]
pub(crate) fn first_at(nodes: &[NodeConfig], place: usize) -> Option<NodeNo>
    ensures { result ≡ slice_index_or (first_masters nodes.now) place None }
{
    match &nodes.get(place)?.role {
        Role::Replica { of } => Some(*of),
        Role::Master { .. } => None,
    }
}

// A node takes the place of another one: it is a master, and whoever followed the other one follows it.
#[tactic(auto, using(crate::proofs::MasterLemmas::succeeds_there, crate::proofs::MasterLemmas::succeeds_past))]
pub(crate) fn succeed(masters: &mut [Option<NodeNo>], former: NodeNo, next: NodeNo)
    ensures { masters.new ≡ succeeded masters.old former next }
{
    follow_instead(masters, former, next);
    let place = next.index();
    if place < masters.len() {
        masters[place] = None;
    }
}

// In each place the next master instead of the former one.
fn follow_instead(masters: &mut [Option<NodeNo>], former: NodeNo, next: NodeNo)
    ensures { masters.new ≡ map (instead former next) masters.old }
{
    for at in 0..masters.len() {
        masters[at] = instead(former, next, masters[at]);
    }
}

fn instead(former: NodeNo, next: NodeNo, master: Option<NodeNo>) -> Option<NodeNo>
    ensures { result ≡ instead former next master }
{
    match master {
        Some(master) if master == former => Some(next),
        other => other,
    }
}

impl<S: SlotParts, T: Stream> NodeParts<S, T> {
    /// For each node the master that it is a replica of, if it is one.
    pub fn masters(&self) -> &[Option<NodeNo>]
        ensures same { result.now ≡ self.now.masters }
        ensures most { length self.now.masters ≤ 16 }
    {
        &self.election.masters[..self.config.nodes().len()]
    }

    /// The master of that node, if it is a replica.
    pub fn master_of(&self, node: NodeNo) -> Option<NodeNo>
        ensures { result ≡ slice_index_or self.now.masters node None }
    {
        *self.masters().get(node.index())?
    }
}
