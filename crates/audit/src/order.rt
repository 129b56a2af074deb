//! The journals of a cluster, in the order of its nodes.
ghost use Rattle.std.specs.Prelude.{◌≡◌, [], length, IfNone, IfOk, IfSome};
ghost use Rattle.audit.specs.Merge.{AreEachOnce, AreTaken, nodes_of};

use crate::each_node::take_node;
use crate::journal::NodeJournal;
use crate::part::Part;
use node_cell::Deployment;
use std::alloc::{AllocError, Global};
use tickets::Seat;

/// The journals of all nodes, by their numbers, and the seats that drew their tickets.
#[derive(Drop)]
pub(crate) struct Taken {
    pub(crate) journals: Vec<NodeJournal>,
    pub(crate) seats: Vec<Seat>,
}

/// Takes the parts of so many nodes apart, if they are those of each node once.
pub(crate) fn take_apart<K: Deployment>(
    alloc: Global,
    count: usize,
    mut parts: Vec<Part<K>>,
) -> Result<Option<Taken>, AllocError>
    requires { count ≡ length K.config.nodes }
    ensures some { IfOk result (λ found. IfSome found
        (λ taken. AreTaken K.config K.table K.seats parts.items count taken.journals.items taken.seats.items [])) }
    ensures none { IfOk result
        (λ found. IfNone found (AreEachOnce count (nodes_of parts.items) → ⊥)) }
{
    let mut journals = Vec::with_capacity(alloc, count)?;
    let mut seats = Vec::with_capacity(alloc, count)?;
    for number in 0..count {
        let Some(part) = take_node(&mut parts, number) else {
            return Ok(None);
        };
        let (entries, seat) = part.into_parts();
        journals
            .push(NodeJournal::new(entries))
            .map_err(AllocError::from)?;
        seats.push(seat).map_err(AllocError::from)?;
    }
    if !parts.is_empty() {
        return Ok(None);
    }
    Ok(Some(Taken { journals, seats }))
}
