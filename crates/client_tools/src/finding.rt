//! Where a replica is reached. No node tells where its replicas listen.

use crate::questions::Questions;
use crate::slot_map::SlotMap;
use cluster_config::NodeId;
use redirection::Address;
use smart_client::Network;
use std::alloc::{AllocError, Global};
use tool_io::{ToolFailure, unfound_failure};

/// Where the replica is reached: at the address `start`, or where its number leads to from there. At `start` these slots are listed.
pub(crate) fn find<N: Network + Drop>(
    alloc: Global,
    nodes: &mut Questions<N>,
    start: &Address,
    replica: &NodeId,
    slots: &SlotMap,
) -> Result<Address, ToolFailure> {
    let id = nodes.id(start)?;
    if is_same(&id, replica) {
        return Ok(start.clone()?);
    }
    let Some(place) = place_beside(start, &id, replica)? else {
        return Err(unfound_failure(alloc, start, &id, replica));
    };
    if !is_there(nodes, &place, replica, slots)? {
        return Err(unfound_failure(alloc, start, &id, replica));
    }
    Ok(place)
}

fn is_same(id: &NodeId, other: &NodeId) -> bool {
    id.bytes().as_slice() == other.bytes().as_slice()
}

// Where the other node would be in a cluster without a file, whose ports rise with the numbers of its nodes. The node with this id is at the
// address.
fn place_beside(
    start: &Address,
    id: &NodeId,
    other: &NodeId,
) -> Result<Option<Address>, AllocError> {
    let Some(port) = port_beside(start.port(), id, other) else {
        return Ok(None);
    };
    Ok(Address::new(start.host().clone()?, port))
}

fn port_beside(port: u16, id: &NodeId, other: &NodeId) -> Option<u16> {
    let first = u64::from(port).checked_sub(number_of(id)?)?;
    let port = first.checked_add(number_of(other)?)?;
    u16::try_from(port).ok()
}

// The number of the node, where the id is that number in hexadecimal digits behind zeros.
fn number_of(id: &NodeId) -> Option<u64> {
    let (last, others) = id.bytes().as_slice().split_last()?;
    if others.iter().any(|digit| *digit != b'0') {
        return None;
    }
    let number = char::from(*last).to_digit(16)?;
    Some(u64::from(number))
}

// Whether the replica is there. A node of another cluster may have its id, so it has to list the same masters.
fn is_there<N: Network + Drop>(
    nodes: &mut Questions<N>,
    place: &Address,
    replica: &NodeId,
    slots: &SlotMap,
) -> Result<bool, ToolFailure> {
    let id = match nodes.id(place) {
        Ok(id) => id,
        Err(failure) => return unless_no_node(failure),
    };
    if !is_same(&id, replica) {
        return Ok(false);
    }
    match nodes.slots(place) {
        Ok(others) => Ok(others.is_same(slots)),
        Err(failure) => unless_no_node(failure),
    }
}

// It isn't there where nobody answers, or not as a node does.
fn unless_no_node(failure: ToolFailure) -> Result<bool, ToolFailure> {
    if failure.is_unreached() || failure.is_strange() {
        return Ok(false);
    }
    Err(failure)
}
