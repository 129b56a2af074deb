//! A message of a node to another.
ghost use Rattle.std.specs.Prelude.{◌≡◌};

use crate::bodies::{ElectionBody, SlotsBody, StreamBody};
use crate::suspects::Suspects;
use slot_table::{Epoch, NodeNo};
use std::alloc::AllocError;

/// What a message says.
#[derive(Debug, Drop)]
pub enum Body {
    /// Something of slots.
    Slots(SlotsBody),
    /// Something of a stream of writes.
    Stream(StreamBody),
    /// Something of an election or a handover.
    Election(ElectionBody),
    /// For each node whether the sender suspects it.
    Report(Suspects),
}

impl Clone for Body {
    ghost is_clone = { λ body copy. copy ≡ body };

    fn clone(&self) -> Result<Body, AllocError> {
        match self {
            Body::Slots(body) => Ok(Body::Slots(body.clone()?)),
            Body::Stream(body) => Ok(Body::Stream(body.clone()?)),
            Body::Election(body) => Ok(Body::Election(body.clone()?)),
            Body::Report(suspects) => Ok(Body::Report(*suspects)),
        }
    }
}

/// A message of a node to another.
///
/// A copy of it takes no memory for keys with their values, nor for the runs of a claim: it shares them.
#[derive(Debug)]
pub struct Message {
    /// The node that sends it.
    pub from: NodeNo,
    /// The node that it is for.
    pub to: NodeNo,
    /// The number of the sender's step that sent it, drawn from the counter of all steps.
    pub ticket: u64,
    /// The greatest epoch that the sender knew at the end of this step.
    pub epoch: Epoch,
    /// What it says.
    pub body: Body,
}

impl Drop for Message {
    fn drop(self) {
        let Message {
            from: _,
            to: _,
            ticket: _,
            epoch: _,
            body: _,
        } = self;
    }
}

impl Clone for Message {
    ghost is_clone = { λ message copy. copy ≡ message };

    fn clone(&self) -> Result<Message, AllocError> {
        Ok(Message {
            from: self.from,
            to: self.to,
            ticket: self.ticket,
            epoch: self.epoch,
            body: self.body.clone()?,
        })
    }
}
