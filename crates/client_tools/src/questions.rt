//! What is asked of nodes for a handover, one question at a time.

use crate::calling::items_of;
use crate::slot_map::SlotMap;
use crate::slot_report::SlotReport;
use cluster_config::NodeId;
use command_table::ErrorLine;
use redirection::Address;
use resp2::{Reply, Words};
use smart_client::{Action, Event, Network};
use std::alloc::Global;
use tool_io::{HandoverFault, ToolFailure, ToolFault};

/// Questions to nodes, over a way to them.
pub(crate) struct Questions<N: Network + Drop> {
    alloc: Global,
    network: N,
}

impl<N: Network + Drop> Drop for Questions<N> {
    fn drop(self) {
        let Questions {
            alloc: _,
            network: _,
        } = self;
    }
}

/// What a node says that is asked to take the place of its master.
#[derive(Clone, Copy)]
pub(crate) enum Consent {
    /// It asks its master to hand over.
    Asks,
    /// It has none: it is a master itself.
    HasNoMaster,
}

impl<N: Network + Drop> Questions<N> {
    /// Questions that are asked over this way.
    pub(crate) fn new(alloc: Global, network: N) -> Questions<N> {
        Questions { alloc, network }
    }

    /// The id of the node at the address.
    pub(crate) fn id(&mut self, at: &Address) -> Result<NodeId, ToolFailure> {
        let reply = self.ask(at, &["CLUSTER", "MYID"])?;
        let Reply::Bulk(id) = reply else {
            return Err(ToolFailure::from(HandoverFault::BadReply));
        };
        match NodeId::new(id) {
            Some(id) => Ok(id),
            None => Err(ToolFailure::from(HandoverFault::BadReply)),
        }
    }

    /// Which slots each master has, as the node at the address knows it.
    pub(crate) fn slots(&mut self, at: &Address) -> Result<SlotMap, ToolFailure> {
        let reply = self.ask(at, &["CLUSTER", "SLOTS"])?;
        match SlotMap::read(self.alloc, &reply)? {
            Some(map) => Ok(map),
            None => Err(ToolFailure::from(HandoverFault::BadReply)),
        }
    }

    /// What the master at the address reports of the slot of that number.
    pub(crate) fn report(&mut self, at: &Address, slot: u16) -> Result<SlotReport, ToolFailure> {
        let slot = format!(in self.alloc; "{slot}")?;
        let reply = self.ask(at, &["CLUSTER", "SLOTSTATE", slot.as_str()])?;
        match SlotReport::read(&reply)? {
            Some(report) => Ok(report),
            None => Err(ToolFailure::from(HandoverFault::BadReply)),
        }
    }

    /// Whether the node at the address has keys of the slot of that number.
    pub(crate) fn has_keys(&mut self, at: &Address, slot: u16) -> Result<bool, ToolFailure> {
        let slot = format!(in self.alloc; "{slot}")?;
        match self.ask(at, &["CLUSTER", "COUNTKEYSINSLOT", slot.as_str()])? {
            Reply::Integer(count) => Ok(count > 0),
            _ => Err(ToolFailure::from(HandoverFault::BadReply)),
        }
    }

    /// Asks the node at the address to take the place of its master.
    pub(crate) fn failover(&mut self, at: &Address) -> Result<Consent, ToolFailure> {
        let reply = self.ask(at, &["CLUSTER", "FAILOVER"])?;
        match consent_in(&reply) {
            Some(consent) => Ok(consent),
            None => Err(ToolFailure::from(HandoverFault::BadReply)),
        }
    }

    // The reply of the node at the address to these words.
    fn ask(&mut self, at: &Address, words: &[&str]) -> Result<Reply, ToolFailure> {
        // A few short words are always a request.
        let Some(words) = Words::new(items_of(self.alloc, words)?) else {
            return Err(ToolFailure::from(ToolFault::Memory));
        };
        let at = at.clone()?;
        match self.network.perform(Action::Connect(at)) {
            Event::Connected => reply_in(self.network.perform(Action::Send(words))),
            event => reply_in(event),
        }
    }
}

// The reply that came, if one did.
fn reply_in(event: Event) -> Result<Reply, ToolFailure> {
    match event {
        Event::Reply(reply) => Ok(reply),
        Event::NoMemory { .. } => Err(ToolFailure::from(ToolFault::Memory)),
        Event::BadReply => Err(ToolFailure::from(HandoverFault::BadReply)),
        Event::Call(_) | Event::Connected | Event::NotConnected | Event::Broken { .. } => {
            Err(ToolFailure::from(HandoverFault::NotReached))
        }
    }
}

// What the reply to CLUSTER FAILOVER says, or None where no node answers so.
fn consent_in(reply: &Reply) -> Option<Consent> {
    match reply {
        Reply::Simple(text) if text.as_slice() == b"OK".as_slice() => Some(Consent::Asks),
        Reply::Error(text) if text.as_slice() == ErrorLine::NotReplica.text() => {
            Some(Consent::HasNoMaster)
        }
        _ => None,
    }
}
