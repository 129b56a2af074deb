//! The ends of a node's links with all nodes.
ghost use Rattle.std.specs.Prelude.{◌≡◌, ◌<◌, ◌++◌, ◌∷◌, [], All, IfOk, OnOk, length, vec_len};
ghost use Rattle.link_ends.specs.Ends.{AreLinked, AreLinkedFrom, IsUnused, links_by};
ghost use Rattle.link_ends.specs.Joining.{facing, joined};

use crate::end::LinkEnd;
use crate::halves::link;
use std::alloc::{AllocError, Global};
use std::marker::Model;
use std::sync::Wait;

/// A node's ends of its links with all nodes, itself among them, by their numbers.
pub struct NodeEnds<T, R: Wait> {
    ends: Vec<LinkEnd<T, R>>,
}

impl<T, R: Wait> Model for NodeEnds<T, R> {
    ghost use Rattle.std.specs.Prelude.{List};
    ghost use Rattle.link_ends.specs.Ends.{EndView};

    ghost Value = { List (EndView T) };

    ghost view = { λ ends. ends.ends.items };
}

impl<T: Drop, R: Wait + Drop> Drop for NodeEnds<T, R> {
    fn drop(self) {
        let NodeEnds { ends: _ } = self;
    }
}

impl<T: Drop, R: Wait + Drop> NodeEnds<T, R> {
    fn push(&mut self, end: LinkEnd<T, R>) -> Result<(), AllocError>
        ensures { OnOk result (self.new ≡ self.old ++ end ∷ []) }
    {
        self.ends.push(end).map_err(AllocError::from)
    }
}

impl<T, R: Wait> NodeEnds<T, R> {
    /// The node's ends, by the numbers of the other nodes.
    pub fn new(ends: Vec<LinkEnd<T, R>>) -> NodeEnds<T, R>
        ensures { result ≡ ends.items }
    {
        NodeEnds { ends }
    }

    // Takes the last end off.
    pub(crate) fn take_last(&mut self) -> LinkEnd<T, R>
        requires { 0 < length self.old }
        ensures { self.old ≡ self.new ++ result ∷ [] }
    {
        self.ends.pop().unwrap()
    }

    /// The ends by the number of the other node.
    pub fn into_vec(self) -> Vec<LinkEnd<T, R>>
        ensures { result.items ≡ self }
    {
        let NodeEnds { ends } = self;
        ends
    }
}

/// Links between so many nodes, each with each and with itself, without a message: the ends of each node, by its number.
pub fn link_all<T: Drop, R: Wait + Copy + Drop>(
    alloc: Global,
    rt: R,
    nodes: usize,
) -> Result<Vec<NodeEnds<T, R>>, AllocError>
    ensures linked { IfOk result (λ ends. AreLinked nodes ends.items) }
    ensures named { IfOk result (λ ends. AreLinkedFrom (links_by ends.items) nodes 0 ends.items) }
{
    let mut all = Vec::with_capacity(alloc, nodes)?;
    for _ in 0..nodes {
        let mut ends = join_each(alloc, rt, nodes, all.as_mut_slice())?;
        let own = link_to_itself(alloc, rt)?;
        ends.push(own).map_err(AllocError::from)?;
        all.push(NodeEnds { ends }).map_err(AllocError::from)?;
    }
    Ok(all)
}

// Links a further node with each of those that there are, and gives its ends.
fn join_each<T: Drop, R: Wait + Copy + Drop>(
    alloc: Global,
    rt: R,
    nodes: usize,
    others: &mut [NodeEnds<T, R>],
) -> Result<Vec<LinkEnd<T, R>>, AllocError>
    ensures joined { IfOk result (λ row. others.new ≡ joined others.old row.items) }
    ensures count { IfOk result (λ row. vec_len row ≡ length others.old) }
    ensures unused { IfOk result (λ row. All IsUnused row.items) }
{
    let mut row = Vec::with_capacity(alloc, nodes)?;
    for other in 0..others.len() {
        let (there, here) = link_both(alloc, rt)?;
        others[other].push(there)?;
        row.push(here).map_err(AllocError::from)?;
    }
    Ok(row)
}

// The ends of two nodes, by a link each way.
fn link_both<T: Drop, R: Wait + Copy + Drop>(
    alloc: Global,
    rt: R,
) -> Result<(LinkEnd<T, R>, LinkEnd<T, R>), AllocError>
    ensures facing { IfOk result (λ ends. ends.0 ≡ facing ends.1) }
    ensures unused { IfOk result (λ ends. IsUnused ends.1) }
{
    let (sender, receiver) = link(alloc)?;
    let (other_sender, other_receiver) = link(alloc)?;
    Ok((
        LinkEnd::new(rt, sender, other_receiver),
        LinkEnd::new(rt, other_sender, receiver),
    ))
}

// The end by which a node sends to itself.
fn link_to_itself<T: Drop, R: Wait + Copy + Drop>(
    alloc: Global,
    rt: R,
) -> Result<LinkEnd<T, R>, AllocError>
    ensures { IfOk result (λ end. end ≡ facing end) }
{
    let (sender, receiver) = link(alloc)?;
    Ok(LinkEnd::new(rt, sender, receiver))
}
