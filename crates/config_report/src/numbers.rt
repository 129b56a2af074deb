//! The times, the backlog and the ports, which have to be in their ranges.
use crate::json::{nodes_of, number_of};
use crate::wrong::{Halt, Place, wrong};
use serde_json::Value;
use std::alloc::Global;

/// Halts at the first number that is out of its range.
pub(crate) fn check_numbers(alloc: Global, cluster: &Value) -> Result<(), Halt> {
    for name in ["tick_ms", "node_timeout"] {
        let time = number_of(cluster, name);
        check_number(alloc, time, 1_000_000, Place::Member(name))?;
    }
    let backlog = number_of(cluster, "backlog");
    check_number(alloc, backlog, 16_777_216, Place::Member("backlog"))?;
    for (number, node) in nodes_of(cluster).iter().enumerate() {
        let port = number_of(node, "port");
        check_number(alloc, port, 65_535, Place::NodeMember(number, "port"))?;
    }
    Ok(())
}

fn check_number(
    alloc: Global,
    number: Option<i128>,
    last: i128,
    place: Place<'_>,
) -> Result<(), Halt> {
    match number {
        Some(number) if !(1..=last).contains(&number) => {
            let what = format_args!("{number} isn't from 1 to {last}");
            Err(wrong(alloc, place, what))
        }
        _ => Ok(()),
    }
}
