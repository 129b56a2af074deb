//! An end of a link as a node uses it, with a bad network in front of it or without.
ghost use Rattle.std.specs.Prelude.{◌≡◌, Contains, IfErr, IfNone, IfSome, OnErr, OnOk, refl};
ghost use Rattle.link_ends.specs.Giving.{Gives, GivesNone, with_sent};
ghost use Rattle.link_ends.specs.Halves.{WasFull};

use crate::acts::Act;
use crate::end::LinkEnd;
use bus::Link;
use std::sync::Wait;

/// A node's end of its link with another node, as its port uses it: a [`LinkEnd`], or a [`Shim`](crate::Shim) in front of one.
///
/// It may give a message late, several times or never, but none that it didn't receive over the link.
pub trait PortEnd: Link + Drop {
    ghost use Rattle.link_ends.specs.Giving.{GivingView};

    /// The leave to wait for a thread that is busy at the other end.
    type Handle: Wait + Drop;

    /// The end of the link, and what was given of the messages that it received.
    ghost giving: { Self → GivingView Self.Carried };

    /// Sends the message, or hands it back where 1,024 others wait.
    fn post(&mut self, message: Self::Carried) -> Result<(), Self::Carried>
        ensures sent { OnOk result (giving self.new ≡ with_sent (giving self.old) message) }
        ensures back { IfErr result (λ back. back ≡ message) }
        ensures unsent { OnErr result (giving self.new ≡ giving self.old) }
        ensures full { OnErr result (WasFull (giving self.old).end.sent) };

    /// The next message, if there is one to be given.
    fn receive(&mut self) -> Option<Self::Carried>
        ensures some { IfSome result
            (λ message. Gives (giving self.old) message (giving self.new)) }
        ensures none { IfNone result (GivesNone (giving self.old) (giving self.new)) };

    /// How many messages were sent to the other end and not received there yet.
    fn on_the_way(&mut self) -> usize
        ensures { giving self.new ≡ giving self.old };

    /// Whether the sender at the other end is to be told that there is room for many messages, because half of those that a link has room for wait to
    /// be received.
    fn is_half_full(&mut self) -> bool
        ensures { giving self.new ≡ giving self.old };

    /// The next act that a bad network did to a message and that wasn't told yet, for a log.
    fn tell_act(&mut self) -> Option<Act>
        ensures { giving self.new ≡ giving self.old };

    /// The end of the link.
    fn into_end(self) -> LinkEnd<Self::Carried, Self::Handle>
        ensures { result ≡ (giving self).end };

    /// What it gave as a link is what it gave.
    ghost as_link: { (end : Self) → Self.received end ≡ (giving end).given };

    /// What it gave was received over the link.
    ghost came: { (end : Self) (message : Self.Carried) → Contains (giving end).given message → Contains (giving end).end.received message };
}

impl<T: Drop, R: Wait + Drop> PortEnd for LinkEnd<T, R> {
    ghost use Rattle.link_ends.specs.Giving.{plain};

    type Handle = R;

    ghost giving = { plain };

    ghost as_link = { λ end. refl };

    ghost came = { λ end message there. there };

    fn post(&mut self, message: T) -> Result<(), T> {
        LinkEnd::send(self, message)
    }

    fn receive(&mut self) -> Option<T> {
        LinkEnd::try_receive(self)
    }

    fn on_the_way(&mut self) -> usize {
        LinkEnd::on_the_way(self)
    }

    fn is_half_full(&mut self) -> bool {
        LinkEnd::is_half_full(self)
    }

    // Nothing is done to messages.
    fn tell_act(&mut self) -> Option<Act> {
        None
    }

    fn into_end(self) -> LinkEnd<T, R> {
        self
    }
}
