//! What there is of each node, in the order of the nodes.
ghost use Rattle.std.specs.Prelude.{◌≡◌, IfNone, IfOk, IfSome, map};
ghost use Rattle.std.specs.List.{range_with_len};
ghost use Rattle.std.specs.List.Sorted.{IsPermutation};
ghost use Rattle.audit.specs.Merge.{AreEachOnce, IfFound, IsAt, IsWithout};
ghost use Rattle.tickets.specs.Tickets.{times};

use std::alloc::{AllocError, Global};

/// What is of one node.
pub(crate) trait OfNode {
    ghost use Rattle.std.specs.Prelude.{ℕ};

    ghost node: { Self → ℕ };

    /// The number of the node.
    fn node_number(&self) -> usize
        ensures { result ≡ node self.now };
}

/// Puts what comes in any order in that of its nodes, if it is of each of so many nodes once.
pub(crate) fn put_in_order<T: OfNode + Drop>(
    alloc: Global,
    count: usize,
    mut all: Vec<T>,
) -> Result<Option<Vec<T>>, AllocError>
    ensures order { IfFound result (λ ordered. map T.node ordered.items ≡ range_with_len 0 count) }
    ensures same { IfFound result (λ ordered. IsPermutation all.items ordered.items) }
    ensures none { IfOk result
        (λ found. IfNone found (AreEachOnce count (map T.node all.items) → ⊥)) }
{
    let mut ordered = Vec::with_capacity(alloc, count)?;
    for number in 0..count {
        let Some(one) = take_node(&mut all, number) else {
            return Ok(None);
        };
        ordered.push(one).map_err(AllocError::from)?;
    }
    if !all.is_empty() {
        return Ok(None);
    }
    Ok(Some(ordered))
}

/// Takes the first that is of the node with that number out of the others.
pub(crate) fn take_node<T: OfNode>(all: &mut Vec<T>, number: usize) -> Option<T>
    ensures node { IfSome result (λ one. T.node one ≡ number) }
    ensures some { IfSome result (λ one. IsWithout all.old.items one all.new.items) }
    ensures none { IfNone result (times number (map T.node all.old.items) ≡ 0) }
{
    let place = place_of(all.as_slice(), number)?;
    Some(all.remove(place))
}

// Where the first of that node stands.
fn place_of<T: OfNode>(all: &[T], number: usize) -> Option<usize>
    ensures some { IfSome result (λ place. IsAt T.node all.now number place) }
    ensures none { IfNone result (times number (map T.node all.now) ≡ 0) }
{
    for place in 0..all.len() {
        if all[place].node_number() == number {
            return Some(place);
        }
    }
    None
}
