//! The members of a cluster and of its nodes, and the kinds of their values.
use crate::json::{items_of, nodes_of, number_in};
use crate::wrong::{Halt, Place, wrong};
use byte_string::ByteString;
use cluster_config::Host;
use serde_json::Value;
use std::alloc::{AllocError, Global};

/// Halts at the first member that is strange, missing or of the wrong kind.
pub(crate) fn check_form(alloc: Global, cluster: &Value) -> Result<(), Halt> {
    let names = ["tick_ms", "node_timeout", "nodes", "voters", "backlog"];
    check_names(alloc, cluster, Place::Whole, "a cluster", &names)?;
    check_presence(alloc, cluster, Place::Whole, &names[..4])?;
    for name in ["tick_ms", "node_timeout"] {
        check_number(alloc, cluster.get(name), Place::Member(name))?;
    }
    if let Some(backlog) = cluster.get("backlog") {
        check_number(alloc, Some(backlog), Place::Member("backlog"))?;
    }
    for name in ["nodes", "voters"] {
        check_array(alloc, cluster.get(name), Place::Member(name))?;
    }
    for (number, node) in nodes_of(cluster).iter().enumerate() {
        check_node(alloc, number, node)?;
    }
    for (at, voter) in items_of(cluster, "voters").iter().enumerate() {
        check_text(alloc, Some(voter), Place::Voter(at))?;
    }
    Ok(())
}

fn check_node(alloc: Global, number: usize, node: &Value) -> Result<(), Halt> {
    let names = ["id", "host", "port", "slots", "replica_of"];
    check_names(alloc, node, Place::Node(number), "a node", &names)?;
    check_presence(alloc, node, Place::Node(number), &["id", "host", "port"])?;
    check_text(alloc, node.get("id"), Place::NodeMember(number, "id"))?;
    check_host(alloc, node.get("host"), Place::NodeMember(number, "host"))?;
    check_number(alloc, node.get("port"), Place::NodeMember(number, "port"))?;
    check_role(alloc, number, node)
}

fn check_role(alloc: Global, number: usize, node: &Value) -> Result<(), Halt> {
    match (node.get("slots"), node.get("replica_of")) {
        (Some(_), None) => check_ranges(alloc, number, node),
        (None, Some(id)) => check_text(alloc, Some(id), Place::NodeMember(number, "replica_of")),
        (Some(_), Some(_)) => {
            let what = "slots and replica_of exclude each other";
            Err(wrong(alloc, Place::Node(number), what))
        }
        (None, None) => {
            let what = "one of slots and replica_of is wanted";
            Err(wrong(alloc, Place::Node(number), what))
        }
    }
}

fn check_ranges(alloc: Global, number: usize, node: &Value) -> Result<(), Halt> {
    check_array(alloc, node.get("slots"), Place::NodeMember(number, "slots"))?;
    for (at, range) in items_of(node, "slots").iter().enumerate() {
        if !is_pair(range) {
            let what = "an array of two integers is wanted";
            return Err(wrong(alloc, Place::Range(number, at), what));
        }
    }
    Ok(())
}

fn is_pair(range: &Value) -> bool {
    range.as_array().is_some_and(|ends| ends.len() == 2
        && ends.iter().all(|end| number_in(end).is_some()))
}

// Halts where the value is no object, or has a member that isn't one of these.
fn check_names(
    alloc: Global,
    value: &Value,
    place: Place<'_>,
    kind: &str,
    names: &[&str],
) -> Result<(), Halt> {
    let Some(members) = value.as_object() else {
        return Err(wrong(alloc, place, "an object is wanted"));
    };
    for name in members.keys() {
        let name = name.as_str();
        if !names.iter().any(|known| *known == name) {
            let name = name.escape_debug();
            let what = format_args!("{name} is not a member of {kind}");
            return Err(wrong(alloc, place, what));
        }
    }
    Ok(())
}

// Halts where a member of one of these names is missing.
fn check_presence(
    alloc: Global,
    value: &Value,
    place: Place<'_>,
    names: &[&str],
) -> Result<(), Halt> {
    for name in names {
        if value.get(*name).is_none() {
            return Err(wrong(alloc, place, format_args!("{name} is missing")));
        }
    }
    Ok(())
}

fn check_number(alloc: Global, value: Option<&Value>, place: Place<'_>) -> Result<(), Halt> {
    if value.and_then(number_in).is_none() {
        let what = "an integer of 64 bits without a fraction or an exponent is wanted";
        return Err(wrong(alloc, place, what));
    }
    Ok(())
}

fn check_array(alloc: Global, value: Option<&Value>, place: Place<'_>) -> Result<(), Halt> {
    if !value.is_some_and(Value::is_array) {
        return Err(wrong(alloc, place, "an array is wanted"));
    }
    Ok(())
}

fn check_text(alloc: Global, value: Option<&Value>, place: Place<'_>) -> Result<(), Halt> {
    if !value.is_some_and(Value::is_string) {
        return Err(wrong(alloc, place, "a string is wanted"));
    }
    Ok(())
}

fn check_host(alloc: Global, value: Option<&Value>, place: Place<'_>) -> Result<(), Halt> {
    check_text(alloc, value, place)?;
    let host = value.and_then(Value::as_str).unwrap_or("");
    if !is_host(alloc, host)? {
        let what =
            "1 to 255 printing ASCII characters without a colon are wanted; IPv6 addresses are not supported";
        return Err(wrong(alloc, place, what));
    }
    Ok(())
}

fn is_host(alloc: Global, text: &str) -> Result<bool, AllocError> {
    let text = ByteString::copy_from_slice(alloc, text.as_bytes())?;
    Ok(Host::new(text).is_some())
}
