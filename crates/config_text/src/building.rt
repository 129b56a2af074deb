//! The cluster that a text without fault describes.
ghost use Rattle.std.specs.Prelude.{◌≡◌, ◌<◌, ◌≤◌, All, IfOk, IsTrue, None, length, map};
ghost use Rattle.std.specs.List.{filter_map};
ghost use Rattle.config_text.specs.Faults.{fault_of, follows_master, number_of, range_from, IsSound};
ghost use Rattle.config_text.specs.Reading.{config_of, node_of, role_of};
ghost use Rattle.cluster_config.specs.Texts.{is_host};
ghost use Rattle.cluster_config.specs.declared.config.NodeConfig.{NodeConfig};

use crate::checks::{number_of, range_from};
use crate::form::{Draft, NodeDraft, RoleDraft};
use byte_string::ByteString;
use cluster_config::{Config, NodeConfig, NodeId, Role, SlotRanges};
use key_slot::SlotRange;
use slot_table::NodeNo;
use std::alloc::{AllocError, Global};

/// The cluster that the draft describes.
#[tactic(auto, unfolding(crate::specs::Reading::config_of))]
pub fn config_of(alloc: Global, draft: &Draft) -> Result<Config, AllocError>
    requires { fault_of draft.now ≡ None }
    ensures { IfOk result (λ config. config ≡ config_of draft.now) }
{
    let drafts = draft.nodes.items.as_slice();
    let nodes = nodes_of(alloc, drafts)?;
    let voters = voters_of(alloc, drafts, draft.voters.items.as_slice())?;
    Ok(Config::new(
        draft.tick_ms as u32,
        draft.node_timeout as u32,
        draft.backlog as u32,
        nodes,
        voters,
    ))
}

fn nodes_of(alloc: Global, drafts: &[NodeDraft]) -> Result<Vec<NodeConfig>, AllocError>
    requires few { length drafts.now ≤ 16 }
    requires sound { All (IsSound drafts.now) drafts.now }
    ensures nodes { IfOk result (λ nodes. nodes.items ≡ map (node_of drafts.now) drafts.now) }
    ensures hosts { IfOk result (λ nodes. All (λ (node : NodeConfig). IsTrue (is_host node.host)) nodes.items) }
{
    let mut nodes = Vec::new(alloc);
    for draft in drafts {
        nodes.push(NodeConfig {
            id: NodeId::new(draft.id.clone()?).unwrap(),
            host: draft.host.clone()?,
            port: draft.port as u16,
            role: role_of(alloc, drafts, &draft.role)?,
        })?;
    }
    Ok(nodes)
}

fn role_of(alloc: Global, nodes: &[NodeDraft], role: &RoleDraft) -> Result<Role, AllocError>
    requires few { length nodes.now ≤ 16 }
    requires master { IsTrue (follows_master nodes.now role.now) }
    ensures { IfOk result (λ built. built ≡ role_of nodes.now role.now) }
{
    match role {
        RoleDraft::Slots(pairs) => {
            let ranges = ranges_of(alloc, pairs.items.as_slice())?;
            let slots = SlotRanges { ranges };
            Ok(Role::Master { slots })
        }
        RoleDraft::ReplicaOf(id) => Ok(Role::Replica {
            of: node_no(number_of(nodes, id)),
        }),
    }
}

fn ranges_of(alloc: Global, pairs: &[(i128, i128)]) -> Result<Vec<SlotRange>, AllocError>
    ensures { IfOk result (λ ranges. ranges.items ≡ filter_map range_from pairs.now) }
{
    pairs.iter().filter_map(range_from).collect(alloc)
}

fn voters_of(
    alloc: Global,
    nodes: &[NodeDraft],
    ids: &[ByteString],
) -> Result<Vec<NodeNo>, AllocError>
    requires few { length nodes.now ≤ 16 }
    requires known { All (λ id. number_of nodes.now id < length nodes.now) ids.now }
    ensures { IfOk result (λ voters. voters.items ≡ map (number_of nodes.now) ids.now) }
{
    let mut voters = Vec::new(alloc);
    for id in ids {
        voters.push(node_no(number_of(nodes, id)))?;
    }
    Ok(voters)
}

fn node_no(number: usize) -> NodeNo
    requires { number < 16 }
    ensures { result ≡ number }
{
    NodeNo::new(number as u8).unwrap()
}
