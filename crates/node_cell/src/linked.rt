//! What has a node's cell and its links with all nodes.

use crate::holder::HoldsCell;
use link_ends::Act;
use std::alloc::AllocError;
use std::sync::Wait;

/// What came of a look at the link from a node.
#[derive(Clone, Copy, PartialEq, Eq)]
pub enum Taken {
    /// No message has come.
    Nothing,
    /// A message has come, and the node has made no step for it.
    NoStep,
    /// A message has come, and the node has made its step.
    Step,
}

/// What has a node's cell and its links with all nodes.
pub trait HasLinks<R: Wait>: HoldsCell {
    /// Takes the next message from the node with that number. One for which there is no memory is lost, as it may be on any network.
    fn take_from(&mut self, from: usize) -> Taken;

    /// Takes the next message from that node off its link and loses it, and says whether there was one.
    fn lose_from(&mut self, from: usize) -> bool;

    /// Whether the link from that node is half full.
    fn is_half_full(&mut self, from: usize) -> bool;

    /// The next act that a bad network did to a message from that node and that wasn't told yet.
    fn tell_act(&mut self, from: usize) -> Option<Act>;

    /// Whether messages wait for their links in too great numbers.
    fn is_behind(&self) -> bool;

    /// Sends messages to that node as far as there is room, and says whether there was one.
    fn send_out(&mut self, rt: &R, to: usize) -> Result<bool, AllocError>;
}
