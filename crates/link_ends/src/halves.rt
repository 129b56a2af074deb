//! A link, and its two ends.
ghost use Rattle.std.specs.Prelude.{◌≡◌, ◌++◌, ◌∷◌, [], List, IfErr, IfNone, IfOk, IfSome, OnErr, OnOk};
ghost use Rattle.link_ends.specs.Halves.{WasFull};

use crate::rule::{Both, Ends, InOrder, Known, Receives, Sends};
use crossbeam_queue::{Pass, RuledArrayQueue};
use std::alloc::{AllocError, Global};
use std::marker::Model;
use std::sync::{Arc, Wait};

/// A link has no more messages than this. Further ones wait at their sender.
pub const MOST_MESSAGES: usize = 1024;

type Queue<T> = RuledArrayQueue<T, Known<T>, InOrder>;

/// The end of a link at which messages of the type `T` are sent.
#[derive(Drop)]
pub struct Sender<T> {
    queue: Arc<Queue<T>, Global>,
    pass: Pass<T, Known<T>>,
}

impl<T> Model for Sender<T> {
    ghost use Rattle.std.specs.Prelude.{◌≡◌, true};
    ghost use Rattle.std.specs.Arc.{arc_value};
    ghost use Rattle.crossbeam_queue.specs.Passes.{IsPassOf, ruled_capacity};
    ghost use Rattle.link_ends.specs.Halves.{SenderView, known_to};

    ghost Value = { SenderView T };

    ghost view = { λ sender.
        record { link = sender.pass.table_id; sent = (known_to sender.pass).sent } };

    ghost invariant = { λ sender.
        IsPassOf (arc_value sender.queue) sender.pass
        × (ruled_capacity (arc_value sender.queue) ≡ 1024)
        × ((known_to sender.pass).sends ≡ true) };
}

/// The end of a link at which messages of the type `T` are received.
#[derive(Drop)]
pub struct Receiver<T> {
    queue: Arc<Queue<T>, Global>,
    pass: Pass<T, Known<T>>,
}

impl<T> Model for Receiver<T> {
    ghost use Rattle.std.specs.Prelude.{◌≡◌, true};
    ghost use Rattle.std.specs.Arc.{arc_value};
    ghost use Rattle.crossbeam_queue.specs.Passes.{IsPassOf};
    ghost use Rattle.link_ends.specs.Halves.{ReceiverView, known_to};

    ghost Value = { ReceiverView T };

    ghost view = { λ receiver.
        record { link = receiver.pass.table_id; received = (known_to receiver.pass).received } };

    ghost invariant = { λ receiver.
        IsPassOf (arc_value receiver.queue) receiver.pass
        × ((known_to receiver.pass).receives ≡ true) };
}

/// A link without a message: the end that sends, and the end that receives.
pub fn link<T: Drop>(alloc: Global) -> Result<(Sender<T>, Receiver<T>), AllocError>
    ensures one { IfOk result (λ ends. ends.0.link ≡ ends.1.link) }
    ensures none_sent { IfOk result (λ ends. ends.0.sent ≡ []) }
    ensures none_received { IfOk result (λ ends. ends.1.received ≡ []) }
{
    let (queue, mut sender) = Queue::<T>::ruled(alloc, MOST_MESSAGES)?;
    let receiver = queue.another::<Ends>(&mut sender);
    let queue = Arc::new(alloc, queue).map_err(AllocError::from)?;
    let other = Arc::try_clone(&queue)?;
    Ok((
        Sender {
            queue,
            pass: sender,
        },
        Receiver {
            queue: other,
            pass: receiver,
        },
    ))
}

impl<T: Drop> Sender<T> {
    /// Sends the message, or hands it back where 1,024 others wait.
    pub fn send<R: Wait>(&mut self, rt: &R, message: T) -> Result<(), T>
        ensures link { self.new.link ≡ self.old.link }
        ensures sent { OnOk result (self.new.sent ≡ self.old.sent ++ message ∷ []) }
        ensures back { IfErr result (λ back. back ≡ message) }
        ensures unsent { OnErr result (self.new.sent ≡ self.old.sent) }
        ensures full { OnErr result (WasFull self.old.sent) }
    {
        self.queue.push_as::<Sends, R>(rt, &mut self.pass, message)
    }

    /// How many messages were sent and not received yet.
    pub fn len<R: Wait>(&mut self, rt: &R) -> usize
        ensures { self.new ≡ self.old }
    {
        self.queue.len_as::<Sends, R>(rt, &mut self.pass)
    }
}

impl<T: Drop> Receiver<T> {
    /// The first message that waits, if one does.
    pub fn try_receive<R: Wait>(&mut self, rt: &R) -> Option<T>
        ensures link { self.new.link ≡ self.old.link }
        ensures some { IfSome result
            (λ message. self.new.received ≡ self.old.received ++ message ∷ []) }
        ensures none { IfNone result (self.new.received ≡ self.old.received) }
    {
        self.queue.pop_as::<Receives, R>(rt, &mut self.pass)
    }

    /// Whether half as many messages wait as there is room for.
    pub fn is_half_full<R: Wait>(&mut self, rt: &R) -> bool
        ensures { self.new ≡ self.old }
    {
        self.queue.len_as::<Receives, R>(rt, &mut self.pass) == MOST_MESSAGES / 2
    }
}

/// Takes both ends of a link together. What was received at the one is a beginning of what was sent at the other.
pub fn compare<T: Drop>(sender: Sender<T>, receiver: Receiver<T>)
    requires { sender.link ≡ receiver.link }
    ensures { (waiting : List T) × (sender.sent ≡ receiver.received ++ waiting) }
{
    let Sender { queue, mut pass } = sender;
    let Receiver {
        queue: _,
        pass: other,
    } = receiver;
    queue.absorb::<Ends>(&mut pass, other);
    queue.learn_as::<Both>(&mut pass);
}
