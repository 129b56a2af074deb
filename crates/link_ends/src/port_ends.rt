//! The ends of nodes as their ports use them: plain, or with a bad network in front of each.
ghost use Rattle.std.specs.Prelude.{◌≡◌, All, IfOk, map};
ghost use Rattle.link_ends.specs.Ends.{AreLinked, AreLinkedFrom, IsUnused, links_by};

use crate::acts::Act;
use crate::end::LinkEnd;
use crate::node_ends::{NodeEnds, link_all};
use crate::port_end::PortEnd;
use crate::repeated::Repeated;
use crate::shim::Shim;
use std::alloc::{AllocError, Global};
use std::collections::VecDeque;
use std::marker::Model;
use std::sync::Wait;

/// A node's ends of its links with all nodes, itself among them, by their numbers: plain ones, or such with a bad network in front of them.
pub struct PortEnds<E: PortEnd> {
    ends: Vec<E>,
}

impl<E: PortEnd> Model for PortEnds<E> {
    ghost use Rattle.std.specs.Prelude.{List, map};
    ghost use Rattle.link_ends.specs.Ends.{EndView};

    ghost Value = { List (EndView E.Carried) };

    ghost view = { λ ends. map (λ end. (E.giving end).end) ends.ends.items };
}

impl<E: PortEnd> Drop for PortEnds<E> {
    fn drop(self) {
        let PortEnds { ends: _ } = self;
    }
}

impl<E: PortEnd> PortEnds<E> {
    /// The node's ends, by the numbers of the other nodes.
    pub fn new(ends: Vec<E>) -> PortEnds<E>
        ensures { result ≡ map (λ end. (E.giving end).end) ends.items }
    {
        PortEnds { ends }
    }

    /// The ends by the number of the other node.
    pub fn into_vec(self) -> Vec<E>
        ensures { map (λ end. (E.giving end).end) result.items ≡ self }
    {
        let PortEnds { ends } = self;
        ends
    }
}

impl<T: Drop, R: Wait + Drop> PortEnds<LinkEnd<T, R>> {
    /// The node's ends, with nothing in front of them.
    pub fn plain(ends: NodeEnds<T, R>) -> PortEnds<LinkEnd<T, R>>
        ensures { result ≡ ends }
    {
        PortEnds::new(ends.into_vec())
    }
}

/// Links between so many nodes, each with each and with itself, without a message: the ends of each node, by its number.
pub fn link_ports<T: Drop, R: Wait + Copy + Drop>(
    alloc: Global,
    rt: R,
    nodes: usize,
) -> Result<Vec<PortEnds<LinkEnd<T, R>>>, AllocError>
    ensures linked { IfOk result (λ ends. AreLinked nodes ends.items) }
    ensures named { IfOk result (λ ends. AreLinkedFrom (links_by ends.items) nodes 0 ends.items) }
{
    let ends = link_all(alloc, rt, nodes)?;
    plain_all(alloc, ends)
}

/// The same, with a bad network in front of each end, which does these acts. They are those for the messages that the first node receives,
/// from the first node, from the second one, and so on, then those for what the second node receives, and so on. Where there are no more, all messages
/// are given as they come.
pub fn link_shims<T: Repeated, R: Wait + Copy + Drop>(
    alloc: Global,
    rt: R,
    nodes: usize,
    acts: Vec<Vec<Act>>,
) -> Result<Vec<PortEnds<Shim<LinkEnd<T, R>>>>, AllocError>
    ensures linked { IfOk result (λ ends. AreLinked nodes ends.items) }
    ensures named { IfOk result (λ ends. AreLinkedFrom (links_by ends.items) nodes 0 ends.items) }
{
    let ends = link_all(alloc, rt, nodes)?;
    shim_all(alloc, ends, acts)
}

// The ends of all nodes, with nothing in front of them.
fn plain_all<T: Drop, R: Wait + Drop>(
    alloc: Global,
    ends: Vec<NodeEnds<T, R>>,
) -> Result<Vec<PortEnds<LinkEnd<T, R>>>, AllocError>
    ensures { IfOk result (λ all. all.items ≡ ends.items) }
{
    let mut all = Vec::with_capacity(alloc, ends.len())?;
    for node in ends {
        all.push(PortEnds::plain(node)).map_err(AllocError::from)?;
    }
    Ok(all)
}

// The ends of all nodes, each with a bad network in front of it, which does these acts.
fn shim_all<T: Repeated, R: Wait + Drop>(
    alloc: Global,
    ends: Vec<NodeEnds<T, R>>,
    acts: Vec<Vec<Act>>,
) -> Result<Vec<PortEnds<Shim<LinkEnd<T, R>>>>, AllocError>
    requires { All (λ ends. All IsUnused ends) ends.items }
    ensures { IfOk result (λ all. all.items ≡ ends.items) }
{
    let mut acts = VecDeque::from(acts);
    let mut all = Vec::with_capacity(alloc, ends.len())?;
    for node in ends {
        let behind = shim_each(alloc, node, &mut acts)?;
        all.push(behind).map_err(AllocError::from)?;
    }
    Ok(all)
}

// A node's ends, each with a bad network in front of it, which does the next of these acts.
fn shim_each<T: Repeated, R: Wait + Drop>(
    alloc: Global,
    node: NodeEnds<T, R>,
    acts: &mut VecDeque<Vec<Act>>,
) -> Result<PortEnds<Shim<LinkEnd<T, R>>>, AllocError>
    requires { All IsUnused node }
    ensures { IfOk result (λ ends. ends ≡ node) }
{
    let plain = node.into_vec();
    let mut ends = Vec::with_capacity(alloc, plain.len())?;
    for end in plain {
        let own = match acts.pop_front() {
            Some(own) => own,
            None => Vec::new(alloc),
        };
        ends.push(Shim::new(alloc, end, own))
            .map_err(AllocError::from)?;
    }
    Ok(PortEnds::new(ends))
}
