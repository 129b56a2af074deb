//! A node's end of its link with another node, or with itself.
ghost use Rattle.std.specs.Prelude.{◌≡◌, ◌++◌, ◌∷◌, [], IfErr, IfNone, IfSome, OnErr, OnOk};
ghost use Rattle.link_ends.specs.Ends.{end_by, with_received};
ghost use Rattle.link_ends.specs.Halves.{WasFull};

use crate::halves::{Receiver, Sender};
use bus::Link;
use std::marker::Model;
use std::sync::Wait;

/// A node's end of its link with another node, or with itself: it sends messages of the type `T` there, and receives those that come
/// from there. The handle `R` is the leave to wait for a thread that is busy at the other end.
pub struct LinkEnd<T, R: Wait> {
    rt: R,
    sender: Sender<T>,
    receiver: Receiver<T>,
}

impl<T, R: Wait> Model for LinkEnd<T, R> {
    ghost use Rattle.link_ends.specs.Ends.{EndView};

    ghost Value = { EndView T };

    ghost view = { λ end. record { to = end.sender.link; from = end.receiver.link; sent = end.sender.sent; received = end.receiver.received } };
}

impl<T: Drop, R: Wait + Drop> Drop for LinkEnd<T, R> {
    fn drop(self) {
        let LinkEnd {
            rt: _,
            sender: _,
            receiver: _,
        } = self;
    }
}

impl<T: Drop, R: Wait + Drop> LinkEnd<T, R> {
    /// The end that sends by the one and receives by the other.
    pub fn new(rt: R, sender: Sender<T>, receiver: Receiver<T>) -> LinkEnd<T, R>
        ensures { result ≡ end_by sender receiver }
    {
        LinkEnd {
            rt,
            sender,
            receiver,
        }
    }

    /// Sends the message, or hands it back where 1,024 others wait.
    pub fn send(&mut self, message: T) -> Result<(), T>
        ensures sent { OnOk result
            (self.new ≡ record self.old { sent = self.old.sent ++ message ∷ [] }) }
        ensures back { IfErr result (λ back. back ≡ message) }
        ensures unsent { OnErr result (self.new ≡ self.old) }
        ensures full { OnErr result (WasFull self.old.sent) }
    {
        self.sender.send(&self.rt, message)
    }

    /// How many messages were sent to the other end and not received there yet.
    pub fn on_the_way(&mut self) -> usize
        ensures { self.new ≡ self.old }
    {
        self.sender.len(&self.rt)
    }

    /// The first message that waits, if one does.
    pub fn try_receive(&mut self) -> Option<T>
        ensures received { IfSome result (λ message. self.new ≡ with_received self.old message) }
        ensures none { IfNone result (self.new ≡ self.old) }
    {
        self.receiver.try_receive(&self.rt)
    }

    /// Whether half of the messages that a link has room for wait to be received: where all that there is room for waited before,
    /// their sender may have more, and now has room for many.
    pub fn is_half_full(&mut self) -> bool
        ensures { self.new ≡ self.old }
    {
        self.receiver.is_half_full(&self.rt)
    }

    /// The halves of the end.
    pub fn into_halves(self) -> (Sender<T>, Receiver<T>)
        ensures { self ≡ end_by result.0 result.1 }
    {
        let LinkEnd {
            rt: _,
            sender,
            receiver,
        } = self;
        (sender, receiver)
    }
}

impl<T: Drop, R: Wait + Drop> Link for LinkEnd<T, R> {
    ghost use Rattle.std.specs.Prelude.{⊤};

    type Carried = T;

    ghost sent = { λ end. end.sent };

    ghost received = { λ end. end.received };

    ghost may_hand_back = { λ end. WasFull end.sent };

    // The queue leaves no mark where it gives nothing, so nothing can be said of what waits then.
    ghost may_give_none = { λ _. ⊤ };

    fn send(&mut self, carried: T) -> Result<(), T> {
        LinkEnd::send(self, carried)
    }

    fn try_receive(&mut self) -> Option<T> {
        LinkEnd::try_receive(self)
    }
}
