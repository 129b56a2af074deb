//! The nodes beside each other: their ids, their masters, how many they are, and their addresses.
use crate::json::{nodes_of, number_of, text_of};
use crate::wrong::{Halt, Place, wrong};
use byte_string::ByteString;
use cluster_config::NodeId;
use serde_json::Value;
use slot_table::NodeNo;
use std::alloc::{AllocError, Global};
use std::collections::BTreeMap;

/// Halts at the first id that is none, or that isn't above the one before it.
pub(crate) fn check_ids(alloc: Global, cluster: &Value) -> Result<(), Halt> {
    let nodes = nodes_of(cluster);
    let mut before = "";
    for (number, node) in nodes.iter().enumerate() {
        let id = text_of(node, "id");
        if !is_id(alloc, id)? {
            let what = "40 lowercase hexadecimal digits are wanted";
            return Err(wrong(alloc, Place::NodeMember(number, "id"), what));
        }
        if id <= before {
            return Err(out_of_order(alloc, nodes, number, id));
        }
        before = id;
    }
    Ok(())
}

fn is_id(alloc: Global, text: &str) -> Result<bool, AllocError> {
    let text = ByteString::copy_from_slice(alloc, text.as_bytes())?;
    Ok(NodeId::new(text).is_some())
}

// The id isn't above the one before it: an earlier node has it, or one that is above it.
fn out_of_order(alloc: Global, nodes: &[Value], number: usize, id: &str) -> Halt {
    let place = Place::NodeMember(number, "id");
    let mut earlier = nodes.iter().take(number);
    match earlier.position(|node| text_of(node, "id") == id) {
        Some(other) => wrong(alloc, place, format_args!("nodes[{other}] has this id too")),
        None => wrong(
            alloc,
            place,
            "the ids rise, and the node before has a greater one",
        ),
    }
}

/// The numbers of the nodes by their ids.
pub(crate) fn numbers_of_ids<'a>(
    alloc: Global,
    nodes: &'a [Value],
) -> Result<BTreeMap<&'a str, usize>, AllocError> {
    let mut numbers = BTreeMap::new(alloc);
    for (number, node) in nodes.iter().enumerate() {
        numbers.insert(text_of(node, "id"), number)?;
    }
    Ok(numbers)
}

/// Halts at the first replica of no master.
pub(crate) fn check_masters(alloc: Global, cluster: &Value) -> Result<(), Halt> {
    let nodes = nodes_of(cluster);
    let numbers = numbers_of_ids(alloc, nodes)?;
    for (number, node) in nodes.iter().enumerate() {
        if node.get("replica_of").is_none() {
            continue;
        }
        let place = Place::NodeMember(number, "replica_of");
        let id = text_of(node, "replica_of");
        let Some(master) = numbers.get(&id) else {
            let what = format_args!("no node has the id {id:?}");
            return Err(wrong(alloc, place, what));
        };
        if nodes
            .get(*master)
            .is_some_and(|master| master.get("slots").is_none())
        {
            let what = format_args!("nodes[{master}] is no master");
            return Err(wrong(alloc, place, what));
        }
    }
    Ok(())
}

/// Halts where there are more nodes than a cluster may have.
pub(crate) fn check_count(alloc: Global, cluster: &Value) -> Result<(), Halt> {
    let count = nodes_of(cluster).len();
    let most = NodeNo::COUNT;
    if count > most {
        let what = format_args!("{count} nodes are listed, and {most} are the most");
        return Err(wrong(alloc, Place::Member("nodes"), what));
    }
    Ok(())
}

/// Halts at the first node whose address is that of an earlier one.
pub(crate) fn check_addresses(alloc: Global, cluster: &Value) -> Result<(), Halt> {
    let mut numbers = BTreeMap::new(alloc);
    for (number, node) in nodes_of(cluster).iter().enumerate() {
        let host = text_of(node, "host");
        let port = number_of(node, "port").unwrap_or(0);
        if let Some(other) = numbers.insert((host, port), number)? {
            let what = format_args!("nodes[{other}] has the address {host}:{port} too");
            return Err(wrong(alloc, Place::Node(number), what));
        }
    }
    Ok(())
}
