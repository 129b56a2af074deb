//! The rule of a link: what was sent is what was received, and then what waits.

use crossbeam_queue::protocol::{Join, Lesson, Outcome, Protocol, Split};
use std::collections::LinkedList;

/// What is known at an end of a link: whether it sends, whether it receives, and what it has sent and received. No value of it is made.
pub struct Known<T> {
    /// It may send.
    pub sends: bool,
    /// It may receive.
    pub receives: bool,
    /// What it sent, in order.
    pub sent: LinkedList<T>,
    /// What it received, in order.
    pub received: LinkedList<T>,
}

/// What was sent arrives in order, each message once.
pub struct InOrder;

impl<T> Protocol<T, Known<T>> for InOrder {
    ghost use Rattle.std.specs.Prelude.{true, []};
    ghost use Rattle.link_ends.specs.Rule.{ArrivesInOrder, known};

    ghost holds = { ArrivesInOrder };

    ghost first = { known true true [] [] };
}

/// The two ends of a link: one sends, and the other receives.
pub(crate) struct Ends;

impl<T> Split<Known<T>> for Ends {
    ghost use Rattle.std.specs.Prelude.{true, false, []};
    ghost use Rattle.link_ends.specs.Rule.{known};

    ghost left = { λ end. known true false end.sent [] };

    ghost right = { λ end. known false true [] end.received };
}

impl<T> Join<Known<T>> for Ends {
    ghost use Rattle.std.specs.Prelude.{true, false, []};
    ghost use Rattle.link_ends.specs.Rule.{known};

    ghost both = { λ sender receiver. known true true sender.sent receiver.received };

    ghost spent = { known false false [] [] };
}

/// A message is sent, unless all that there is room for waits.
pub(crate) struct Sends;

impl<T> Outcome<T, Known<T>> for Sends {
    ghost use Rattle.std.specs.Prelude.{◌≡◌, ◌++◌, ◌∷◌, []};
    ghost use Rattle.link_ends.specs.Rule.{known};

    ghost then = { λ end message after.
        after ≡ known end.sends end.receives (end.sent ++ message ∷ []) end.received };
}

impl<T> Lesson<T, Known<T>> for Sends {
    ghost use Rattle.link_ends.specs.Rule.{EndsWith};

    ghost fact = { λ end waiting. EndsWith end.sent waiting };
}

/// A message is received, unless none waits.
pub(crate) struct Receives;

impl<T> Outcome<T, Known<T>> for Receives {
    ghost use Rattle.std.specs.Prelude.{◌≡◌, ◌++◌, ◌∷◌, []};
    ghost use Rattle.link_ends.specs.Rule.{known};

    ghost then = { λ end message after.
        after ≡ known end.sends end.receives end.sent (end.received ++ message ∷ []) };
}

impl<T> Lesson<T, Known<T>> for Receives {
    ghost use Rattle.std.specs.Prelude.{List, ◌≡◌, ◌++◌};

    ghost fact = { λ end waiting. (sent : List T) × (sent ≡ end.received ++ waiting) };
}

/// What both ends know together.
pub(crate) struct Both;

impl<T> Lesson<T, Known<T>> for Both {
    ghost use Rattle.std.specs.Prelude.{◌≡◌, ◌++◌};

    ghost fact = { λ end waiting. end.sent ≡ end.received ++ waiting };
}
