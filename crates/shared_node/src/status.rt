//! How the nodes of a cluster are, for whoever runs it.

use crate::served::SharedCluster;
use cluster_controls::NodeStatus;
use key_slot::Slot;
use node_cell::HoldsCell;
use slot_table::NodeNo;
use std::sync::Wait;

/// How the nodes of a cluster are.
#[derive(Clone, Copy)]
pub struct ClusterStatus {
    nodes: [Option<NodeStatus>; NodeNo::COUNT],
}

impl ClusterStatus {
    /// How the nodes of this cluster are. It looks at one after the other, each behind its lock, and the later ones may have gone on meanwhile.
    pub fn of<C: HoldsCell + Drop, R: Wait>(rt: &R, cluster: &SharedCluster<C>) -> ClusterStatus {
        let mut nodes = [None; NodeNo::COUNT];
        for (number, status) in nodes.iter_mut().enumerate() {
            *status = look(rt, cluster, number);
        }
        ClusterStatus { nodes }
    }

    /// How the node of that number is, if there is one.
    pub fn node(&self, number: usize) -> Option<NodeStatus> {
        let status = self.nodes.get(number).copied()??;
        Some(NodeStatus {
            behind: self.behind(&status),
            ..status
        })
    }

    // How far the replica of the node is behind that is behind most.
    fn behind(&self, master: &NodeStatus) -> Option<u64> {
        let mut most = None;
        for replica in self.nodes.iter().flatten() {
            if replica.master == Some(master.node) && !replica.is_stopped {
                let behind = master.offset.saturating_sub(replica.offset);
                most = Some(most.unwrap_or(0).max(behind));
            }
        }
        most
    }
}

// How the node of that number is, without its replicas.
fn look<C: HoldsCell + Drop, R: Wait>(
    rt: &R,
    cluster: &SharedCluster<C>,
    number: usize,
) -> Option<NodeStatus> {
    let node = cluster.node(number)?;
    let clients = cluster.clients.count_at(rt, number);
    let cell = node.shared.lock(rt);
    let mut status = status_of(&*cell, number);
    drop(cell);
    status.is_stopped = node.shared.is_closed();
    status.clients = clients;
    status.address = node.address;
    status.steps = node.shared.all_steps();
    Some(status)
}

// What the node with this cell tells of itself.
fn status_of<C: HoldsCell>(cell: &C, number: usize) -> NodeStatus {
    let core = cell.core();
    let mut status = NodeStatus {
        node: number,
        address: None,
        is_stopped: false,
        master: core.own_master().map(|master| master.index()),
        slots: 0,
        keys: 0,
        offset: core.received(),
        behind: None,
        clients: 0,
        steps: 0,
    };
    for number in 0..Slot::COUNT {
        if let Some(slot) = Slot::new(number as u16) {
            count_slot(cell, slot, &mut status);
        }
    }
    status
}

// Adds the slot and its keys to what the node has.
fn count_slot<C: HoldsCell>(cell: &C, slot: Slot, status: &mut NodeStatus) {
    let core = cell.core();
    let keys = core.count_in_slot(slot);
    status.keys = status.keys.saturating_add(keys);
    if let Some(owner) = core.table().owner(slot)
        && owner.index() == status.node
    {
        status.slots = status.slots.saturating_add(1);
    }
}
