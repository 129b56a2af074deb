//! What a node does with a slot, as it reports by CLUSTER SLOTSTATE.
ghost use Rattle.std.specs.Prelude.{◌≡◌, ◌≤◌, ◌<◌, ◌^◌, IfOk, IfSome};
ghost use Rattle.resharder.specs.Replies.{comes, leaves, names, next_number, owns, peer_number, positive, report_in, reported, standing_of};

use cluster_config::NodeId;
use key_slot::MoveNo;
use resp_values::{Element, Reply};

/// What a node does with a slot.
#[derive(Clone, Copy)]
pub(crate) enum Standing {
    /// It owns the slot, which doesn't move.
    Owned,
    /// It owns the slot, which leaves it.
    Migrating,
    /// The slot comes to it.
    Importing,
    /// It has nothing to do with the slot.
    Foreign,
}

impl Standing {
    // What the word says.
    fn of(word: &[u8]) -> Option<Standing>
        ensures { result ≡ standing_of word.now }
    {
        if word == b"owned".as_slice() {
            return Some(Standing::Owned);
        }
        if word == b"migrating".as_slice() {
            return Some(Standing::Migrating);
        }
        if word == b"importing".as_slice() {
            return Some(Standing::Importing);
        }
        if word == b"foreign".as_slice() {
            return Some(Standing::Foreign);
        }
        None
    }
}

/// What a node reports of a slot.
#[derive(Clone, Copy)]
pub(crate) struct Report {
    /// What it does with the slot.
    pub standing: Standing,
    /// The number of the move between it and the other node of the plan, where one is under way.
    pub number: Option<MoveNo>,
    /// The greatest number of a move of the slot in which it took part, or 0.
    pub last: u64,
}

impl Report {
    /// The report that the reply is, where that is the other node of the plan; or None where it is no report.
    pub(crate) fn read(reply: &Reply, peer: &NodeId) -> Option<Report>
        ensures { result ≡ report_in peer.now reply.now }
    {
        let Reply::Array(array) = reply else {
            return None;
        };
        read_elements(array.as_slice(), peer)
    }

    /// Whether the node owns the slot.
    pub(crate) fn owns(&self) -> bool
        ensures { result ≡ owns self.now.standing }
    {
        matches!(self.standing, Standing::Owned | Standing::Migrating)
    }

    /// The number of the move by which the slot leaves the node for the other one.
    pub(crate) fn leaves(&self) -> Option<MoveNo>
        ensures { result ≡ leaves self.now.standing self.now.number }
    {
        match self.standing {
            Standing::Migrating => self.number,
            Standing::Owned | Standing::Importing | Standing::Foreign => None,
        }
    }

    /// The number of the move by which the slot comes to the node from the other one.
    pub(crate) fn comes(&self) -> Option<MoveNo>
        ensures { result ≡ comes self.now.standing self.now.number }
    {
        match self.standing {
            Standing::Importing => self.number,
            Standing::Owned | Standing::Migrating | Standing::Foreign => None,
        }
    }
}

fn read_elements(elements: &[Element], peer: &NodeId) -> Option<Report>
    ensures { result ≡ reported peer.now elements.now }
{
    match elements {
        [
            Element::Array(_),
            Element::Bulk(word),
            node,
            Element::Integer(number),
            Element::Integer(last),
            Element::Integer(_),
            Element::Integer(_),
        ] => {
            let standing = Standing::of(word.as_slice())?;
            let is_peer = names(node, peer)?;
            let number = u64::try_from(*number).ok()?;
            let last = u64::try_from(*last).ok()?;
            Some(Report {
                standing,
                number: peer_number(is_peer, number),
                last,
            })
        }
        _ => None,
    }
}

// Whether the element is the id of the node; None where it is neither an id nor null.
fn names(element: &Element, node: &NodeId) -> Option<bool>
    ensures { result ≡ names node.now element.now }
{
    match element {
        Element::Bulk(id) => Some(id.as_slice() == node.bytes().as_slice()),
        Element::Null => Some(false),
        _ => None,
    }
}

fn peer_number(is_peer: bool, number: u64) -> Option<MoveNo>
    ensures { result ≡ peer_number is_peer number }
{
    if !is_peer {
        return None;
    }
    positive(number)
}

/// The number of a move, or None where it is 0.
pub(crate) fn positive(number: u64) -> Option<MoveNo>
    ensures { result ≡ positive number }
{
    if number == 0 {
        return None;
    }
    MoveNo::new(number)
}

/// The number of the next move after those up to this number, if there is one.
pub(crate) fn next_number(last: u64) -> Option<MoveNo>
    ensures { result ≡ next_number last }
{
    positive(last.checked_add(1)?)
}
