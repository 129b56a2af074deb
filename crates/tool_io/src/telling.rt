//! What standard error says of a call, a run or a handover that stopped: the node, and what it answered.

use crate::failure::{HandoverFault, ToolFailure, ToolFault};
use crate::shown::Shown;
use crate::watched::Seen;
use cluster_config::NodeId;
use redirection::Address;
use resharder::ReshardFault;
use smart_client::ClientFault;
use std::alloc::{AllocError, Global};
use std::cell::RefCell;
use std::fmt;
use std::fmt::Write;

/// Why a call stopped.
pub fn call_failure(alloc: Global, fault: ClientFault, seen: &RefCell<Seen>) -> ToolFailure {
    let code = ToolFault::Client(fault);
    let Ok(seen) = seen.try_borrow() else {
        return ToolFailure::from(code);
    };
    match fault {
        ClientFault::NotConnected if seen.has_place() => {
            ToolFailure::new(code, no_connection_text(alloc, &seen))
        }
        ClientFault::BadReply if seen.has_answer() => {
            ToolFailure::new(code, wrong_answer_text(alloc, &seen))
        }
        _ => ToolFailure::from(code),
    }
}

fn no_connection_text(alloc: Global, seen: &Seen) -> Result<String, AllocError> {
    let unreached = Unreached { seen };
    format!(in alloc; "{unreached}, and the command was not executed")
}

fn wrong_answer_text(alloc: Global, seen: &Seen) -> Result<String, AllocError> {
    let answered = Answered { seen };
    let outcome = if seen.has_sent_command {
        "whether the command was executed is unknown"
    } else {
        "the command was not executed"
    };
    format!(in alloc; "{answered}, which no node does; {outcome}")
}

/// Why a run stopped whose next slot is that one.
pub fn run_failure(
    alloc: Global,
    fault: ReshardFault,
    seen: &RefCell<Seen>,
    slot: u16,
) -> ToolFailure {
    let code = ToolFault::Reshard(fault);
    let Ok(seen) = seen.try_borrow() else {
        return ToolFailure::from(code);
    };
    match fault {
        ReshardFault::TooOften if seen.has_answer() => {
            ToolFailure::new(code, too_often_text(alloc, &seen, slot))
        }
        ReshardFault::NotReached if seen.has_answer() => {
            ToolFailure::new(code, answer_text(alloc, &seen, slot))
        }
        ReshardFault::NotReached if seen.has_place() => {
            ToolFailure::new(code, unreached_text(alloc, &seen, slot))
        }
        ReshardFault::BadReply if seen.has_answer() => {
            ToolFailure::new(code, answer_text(alloc, &seen, slot))
        }
        ReshardFault::NoNextNumber => {
            let text = format!(in alloc; "slot {slot}: no next number of a move is left");
            ToolFailure::new(code, text)
        }
        _ => ToolFailure::from(code),
    }
}

fn too_often_text(alloc: Global, seen: &Seen, slot: u16) -> Result<String, AllocError> {
    let at = At { seen, slot };
    let answered = Answered { seen };
    format!(in alloc; "{at}{answered} more often than --limit allows")
}

fn answer_text(alloc: Global, seen: &Seen, slot: u16) -> Result<String, AllocError> {
    let at = At { seen, slot };
    let answered = Answered { seen };
    format!(in alloc; "{at}{answered}")
}

fn unreached_text(alloc: Global, seen: &Seen, slot: u16) -> Result<String, AllocError> {
    let at = At { seen, slot };
    let unreached = Unreached { seen };
    format!(in alloc; "{at}{unreached}")
}

/// Why a run stopped of whose two ids one isn't listed.
pub fn unlisted_failure(alloc: Global, seen: &RefCell<Seen>, from: &str, to: &str) -> ToolFailure {
    let code = ToolFault::Reshard(ReshardFault::NotListed);
    let Ok(seen) = seen.try_borrow() else {
        return ToolFailure::from(code);
    };
    let id = if seen.lists(from.as_bytes()) {
        to
    } else {
        from
    };
    ToolFailure::new(code, unlisted_text(alloc, &seen, id))
}

fn unlisted_text(alloc: Global, seen: &Seen, id: &str) -> Result<String, AllocError> {
    let mut text = format!(in alloc;
        "no master with slots has the id {id}, and one without slots isn't listed; {} lists",
        seen.place
    )?;
    for (number, master) in seen.masters.iter().enumerate() {
        let mark = if number == 0 { " " } else { ", " };
        write!(text, "{mark}{}", Shown(master.as_slice()))?;
    }
    if seen.masters.is_empty() {
        text.push_str(" none")?;
    }
    Ok(text)
}

/// The failure of a handover, with what was seen where it says nothing itself.
pub fn handover_failure(alloc: Global, failure: ToolFailure, seen: &RefCell<Seen>) -> ToolFailure {
    if failure.detail.is_some() {
        return failure;
    }
    let fault = failure.fault;
    ToolFailure {
        fault,
        detail: handover_text(alloc, fault, seen),
    }
}

fn handover_text(alloc: Global, fault: ToolFault, seen: &RefCell<Seen>) -> Option<String> {
    let ToolFault::Handover(fault) = fault else {
        return None;
    };
    let seen = seen.try_borrow().ok()?;
    match fault {
        HandoverFault::NotReached if seen.has_place() => only_unreached_text(alloc, &seen).ok(),
        HandoverFault::BadReply if seen.has_answer() => only_answer_text(alloc, &seen).ok(),
        _ => None,
    }
}

fn only_unreached_text(alloc: Global, seen: &Seen) -> Result<String, AllocError> {
    let unreached = Unreached { seen };
    format!(in alloc; "{unreached}")
}

fn only_answer_text(alloc: Global, seen: &Seen) -> Result<String, AllocError> {
    let answered = Answered { seen };
    format!(in alloc; "{answered}, which no node does")
}

/// Why no replica takes the place of this node's master: it has none.
pub fn master_failure(alloc: Global, node: &NodeId) -> ToolFailure {
    let text = format!(in alloc; "{} is a master, and takes nobody's place", Named(node));
    ToolFailure::new(ToolFault::Handover(HandoverFault::IsMaster), text)
}

/// Why it isn't known where the replica is: the node with this id is at the address.
pub fn unfound_failure(alloc: Global, at: &Address, id: &NodeId, replica: &NodeId) -> ToolFailure {
    let text = format!(in alloc;
        "{} is {}, and no node tells where its replicas listen: --addr has to be the address of {}",
        Place(at),
        Named(id),
        Named(replica)
    );
    ToolFailure::new(ToolFault::Handover(HandoverFault::NotFound), text)
}

/// Why a run ends that has waited for so many seconds: the replica has no slot yet.
pub fn late_failure(alloc: Global, replica: &NodeId, seconds: u64) -> ToolFailure {
    let text = format!(in alloc;
        "{} hasn't taken the place of its master within {seconds} seconds; it goes on to ask, and takes it once no slot of the master is on the move and more than half of the voters vote for it",
        Named(replica)
    );
    ToolFailure::new(ToolFault::Handover(HandoverFault::NotInTime), text)
}

/// Why a run ends that has waited for so many seconds: the node at the address doesn't list the replica, which has slots.
pub fn unknown_failure(alloc: Global, at: &Address, replica: &NodeId, seconds: u64) -> ToolFailure {
    let text = format!(in alloc;
        "{} has taken the place of its master, and {} doesn't know of it after {seconds} seconds",
        Named(replica),
        Place(at)
    );
    ToolFailure::new(ToolFault::Handover(HandoverFault::NotInTime), text)
}

// What the node in use answered, and to which request.
#[derive(Clone, Copy)]
struct Answered<'a> {
    seen: &'a Seen,
}

impl fmt::Display for Answered<'_> {
    fn fmt<W: fmt::Write>(&self, f: &mut fmt::Formatter<W>) -> fmt::Result {
        let seen = self.seen;
        write!(
            f,
            "{} answered {} to {}",
            seen.place, seen.answer, seen.request
        )
    }
}

/// What a run waits for: an answer, or another one than it got last.
#[derive(Clone, Copy)]
pub(crate) struct Awaited<'a> {
    /// What was seen.
    pub(crate) seen: &'a Seen,
}

impl fmt::Display for Awaited<'_> {
    fn fmt<W: fmt::Write>(&self, f: &mut fmt::Formatter<W>) -> fmt::Result {
        let seen = self.seen;
        if seen.answer.is_empty() {
            return write!(f, "{} hasn't answered {} yet", seen.place, seen.request);
        }
        write!(f, "{}, and is asked again", Answered { seen })
    }
}

/// What a handover waits for: that the node at the address lists the replica.
#[derive(Clone, Copy)]
pub struct Unlisted<'a> {
    /// The address.
    pub at: &'a Address,
    /// The replica.
    pub node: &'a NodeId,
}

impl fmt::Display for Unlisted<'_> {
    fn fmt<W: fmt::Write>(&self, f: &mut fmt::Formatter<W>) -> fmt::Result {
        let place = Place(self.at);
        let node = Named(self.node);
        write!(f, "{place} lists no slot of {node} yet")
    }
}

/// A node by its id.
#[derive(Clone, Copy)]
pub struct Named<'a>(pub &'a NodeId);

impl fmt::Display for Named<'_> {
    fn fmt<W: fmt::Write>(&self, f: &mut fmt::Formatter<W>) -> fmt::Result {
        write!(f, "node {}", Shown(self.0.bytes().as_slice()))
    }
}

/// An address as `host:port`.
#[derive(Clone, Copy)]
pub(crate) struct Place<'a>(pub(crate) &'a Address);

impl fmt::Display for Place<'_> {
    fn fmt<W: fmt::Write>(&self, f: &mut fmt::Formatter<W>) -> fmt::Result {
        let host = str::from_utf8(self.0.host().as_slice()).unwrap_or("");
        write!(f, "{host}:{}", self.0.port())
    }
}

// That the node in use can't be reached, or not any more, or that it can't reach the one to which it is to move a key.
#[derive(Clone, Copy)]
struct Unreached<'a> {
    seen: &'a Seen,
}

impl fmt::Display for Unreached<'_> {
    fn fmt<W: fmt::Write>(&self, f: &mut fmt::Formatter<W>) -> fmt::Result {
        let place = &self.seen.place;
        let error = &self.seen.error;
        if self.seen.has_lost_target {
            let target = &self.seen.target;
            return write!(
                f,
                "{place} can't move a key to {target}, which can't be reached: {error}"
            );
        }
        if !self.seen.request.is_empty() {
            return write!(f, "the connection to {place} failed");
        }
        write!(f, "{place} can't be reached")?;
        if !error.is_empty() {
            write!(f, ": {error}")?;
        }
        Ok(())
    }
}

// The slot at which a run is, once it knows the masters.
#[derive(Clone, Copy)]
struct At<'a> {
    seen: &'a Seen,
    slot: u16,
}

impl fmt::Display for At<'_> {
    fn fmt<W: fmt::Write>(&self, f: &mut fmt::Formatter<W>) -> fmt::Result {
        if self.seen.masters.is_empty() {
            return Ok(());
        }
        write!(f, "slot {}: ", self.slot)
    }
}
