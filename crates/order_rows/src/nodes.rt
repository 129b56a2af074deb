//! Nodes by their ids and addresses.
ghost use Rattle.std.specs.Prelude.{◌≡◌};
ghost use Rattle.cluster_config.specs.declared.config.NodeConfig.{NodeConfig};
ghost use Rattle.node_step.specs.Copies.{is_at};
ghost use Rattle.std.specs.List.{position};
ghost use Rattle.std.specs.Str.{bytes_eq};

use cluster_config::{Config, NodeConfig};
use slot_table::NodeNo;

/// The node with that id.
#[tactic(auto, using(crate::proofs::Positions::place_below))]
pub fn node_with_id(config: &Config, id: &[u8]) -> Option<NodeNo>
    ensures { result ≡ position (λ (node : NodeConfig). bytes_eq node.id id.now) config.now.nodes }
{
    let place = place_with_id(config.nodes(), id)?;
    NodeNo::new(place as u8)
}

// The place of the node with that id.
fn place_with_id(nodes: &[NodeConfig], id: &[u8]) -> Option<usize>
    ensures { result ≡ position (λ (node : NodeConfig). bytes_eq node.id id.now) nodes.now }
{
    nodes
        .iter()
        .position(|node| node.id.bytes().as_slice() == id)
}

/// The node with that address.
#[tactic(auto, using(crate::proofs::Positions::place_below))]
pub fn node_at(config: &Config, host: &[u8], port: i64) -> Option<NodeNo>
    ensures { result ≡ position (is_at host.now port) config.now.nodes }
{
    let place = place_at(config.nodes(), host, port)?;
    NodeNo::new(place as u8)
}

// The place of the node with that address.
fn place_at(nodes: &[NodeConfig], host: &[u8], port: i64) -> Option<usize>
    ensures { result ≡ position (is_at host.now port) nodes.now }
{
    nodes.iter().position(|node| node.host.as_slice() == host && i64::from(node.port) == port)
}
