//! The nodes that vote.
use crate::json::{items_of, nodes_of};
use crate::nodes::numbers_of_ids;
use crate::wrong::{Halt, Place, wrong};
use serde_json::Value;
use std::alloc::Global;
use std::collections::BTreeMap;

/// Halts where there is no node, or none that votes, at the first voter that is no node, or at the first that votes for the second time.
pub(crate) fn check_voters(alloc: Global, cluster: &Value) -> Result<(), Halt> {
    if nodes_of(cluster).is_empty() {
        return Err(one_is_wanted(alloc, "nodes", "node"));
    }
    let voters = items_of(cluster, "voters");
    if voters.is_empty() {
        return Err(one_is_wanted(alloc, "voters", "voter"));
    }
    let numbers = numbers_of_ids(alloc, nodes_of(cluster))?;
    let mut places = BTreeMap::new(alloc);
    for (at, voter) in voters.iter().enumerate() {
        let id = voter.as_str().unwrap_or("");
        if numbers.get(&id).is_none() {
            let what = format_args!("no node has the id {id:?}");
            return Err(wrong(alloc, Place::Voter(at), what));
        }
        if let Some(other) = places.insert(id, at)? {
            let what = format_args!("voters[{other}] is the same node");
            return Err(wrong(alloc, Place::Voter(at), what));
        }
    }
    Ok(())
}

// What halts where a member lists nothing.
fn one_is_wanted(alloc: Global, member: &str, what: &str) -> Halt {
    let what = format_args!("at least one {what} is wanted");
    wrong(alloc, Place::Member(member), what)
}
