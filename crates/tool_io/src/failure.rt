//! Why a tool stops.

use resharder::ReshardFault;
use smart_client::ClientFault;
use std::alloc::AllocError;

/// Why a tool stops.
#[derive(Clone, Copy)]
pub enum ToolFault {
    /// Memory was refused. Of a call whose reply isn't printed yet nothing was sent.
    Memory,
    /// Standard input can't be read.
    Input,
    /// The output can't be written.
    Output,
    /// A call got no reply to its command.
    Client(ClientFault),
    /// A run that moves slots could not go on.
    Reshard(ReshardFault),
    /// A replica isn't known to have taken the place of its master.
    Handover(HandoverFault),
}

/// Why a replica isn't known to have taken the place of its master.
#[derive(Clone, Copy)]
pub enum HandoverFault {
    /// No node of the id is found.
    NotFound,
    /// The node is a master.
    IsMaster,
    /// A slot of its master is on the move, and so it wasn't asked.
    SlotMoves,
    /// It was asked, and hasn't done so in time. It may do so yet.
    NotInTime,
    /// A node can't be reached, or the connection to it failed.
    NotReached,
    /// A reply is none that a node gives there.
    BadReply,
}

/// Why a tool stops: the fault, and a sentence that says what is wrong and where.
pub struct ToolFailure {
    /// The fault.
    pub fault: ToolFault,
    /// What is wrong and where, or None where the fault says enough, or where there was no memory for more.
    pub detail: Option<String>,
}

impl Drop for ToolFailure {
    fn drop(self) {
        let ToolFailure {
            fault: _,
            detail: _,
        } = self;
    }
}

impl ToolFailure {
    /// The fault, with what is wrong and where.
    pub fn new(fault: ToolFault, detail: Result<String, AllocError>) -> ToolFailure {
        ToolFailure {
            fault,
            detail: detail.ok(),
        }
    }

    /// What is wrong and where, if that is known.
    pub fn into_detail(self) -> Option<String> {
        let ToolFailure { fault: _, detail } = self;
        detail
    }

    /// Whether a handover asked a node that can't be reached, or the connection to which failed.
    pub fn is_unreached(&self) -> bool {
        matches!(self.fault, ToolFault::Handover(HandoverFault::NotReached))
    }

    /// Whether it was answered as no node does.
    pub fn is_strange(&self) -> bool {
        matches!(self.fault, ToolFault::Handover(HandoverFault::BadReply))
    }
}

impl From<ToolFault> for ToolFailure {
    fn from(fault: ToolFault) -> ToolFailure {
        ToolFailure {
            fault,
            detail: None,
        }
    }
}

impl From<HandoverFault> for ToolFailure {
    fn from(fault: HandoverFault) -> ToolFailure {
        ToolFailure::from(ToolFault::Handover(fault))
    }
}

impl From<AllocError> for ToolFailure {
    fn from(_refused: AllocError) -> ToolFailure {
        ToolFailure::from(ToolFault::Memory)
    }
}
