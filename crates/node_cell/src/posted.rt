//! Messages that a step sent, until they are delivered.
ghost use Rattle.std.specs.Prelude.{◌≡◌, ◌==◌, [], All, IfNone, IfSome, drop, length};
ghost use Rattle.std.specs.Iterator.{YieldsFirst, item_count};
ghost use Rattle.cell_parts.specs.Journal.{IsSent};
ghost use Rattle.node_cell.specs.Cells.{IsFirstTo};

use bus::Message;
use cell_parts::Deployment;
use link_ends::Repeated;
use slot_table::NodeNo;
use std::alloc::{AllocError, Global};
use std::collections::VecDeque;
use std::marker::{Model, PhantomData};

/// A message that a step of a node of the cluster `K` sent. Only a [`Sending`] gives one, and it stays as it is: whoever carries
/// messages may lose, repeat and reorder them, but makes none and changes none.
pub struct Posted<K: Deployment> {
    message: Message,
    cluster: PhantomData<K>,
}

impl<K: Deployment> Drop for Posted<K> {
    fn drop(self) {
        let Posted {
            message: _,
            cluster: _,
        } = self;
    }
}

impl<K: Deployment> Model for Posted<K> {
    ghost use Rattle.bus.specs.declared.message.Message.{Message as Sent};
    ghost use Rattle.cell_parts.specs.Journal.{IsSent};

    ghost Value = { Sent };

    ghost view = { λ posted. posted.message };

    ghost invariant = { λ posted. IsSent K.config posted.message };
}

impl<K: Deployment> Posted<K> {
    /// The message.
    pub fn message(&self) -> &Message
        ensures same { result.now ≡ self.now }
        ensures sent { IsSent K.config self.now }
    {
        &self.message
    }

    // The message by value, as it is delivered.
    pub(crate) fn into_message(self) -> Message
        ensures { result ≡ self }
    {
        let Posted {
            message,
            cluster: _,
        } = self;
        message
    }
}

impl<K: Deployment> Clone for Posted<K> {
    ghost is_clone = { λ posted copy. copy ≡ posted };

    fn clone(&self) -> Result<Posted<K>, AllocError> {
        Ok(Posted {
            message: self.message.clone()?,
            cluster: PhantomData,
        })
    }
}

impl<K: Deployment> Repeated for Posted<K> {
    fn again(&self) -> Result<Posted<K>, AllocError> {
        self.clone()
    }
}

/// The messages of one step of a node of the cluster `K`, in the order in which it sent them, until they are taken.
pub struct Sending<K: Deployment> {
    messages: VecDeque<Message>,
    cluster: PhantomData<K>,
}

impl<K: Deployment> Drop for Sending<K> {
    fn drop(self) {
        let Sending {
            messages: _,
            cluster: _,
        } = self;
    }
}

impl<K: Deployment> Model for Sending<K> {
    ghost use Rattle.std.specs.Prelude.{All, List};
    ghost use Rattle.bus.specs.declared.message.Message.{Message as Sent};
    ghost use Rattle.cell_parts.specs.Journal.{IsSent};

    ghost Value = { List Sent };

    ghost view = { λ sending. sending.messages.items };

    ghost invariant = { λ sending. All (IsSent K.config) sending.messages.items };
}

impl<K: Deployment> Sending<K> {
    // The messages of a step.
    pub(crate) fn new(messages: Vec<Message>) -> Sending<K>
        requires { All (IsSent K.config) messages.items }
        ensures { result ≡ messages.items }
    {
        Sending {
            messages: VecDeque::from(messages),
            cluster: PhantomData,
        }
    }

    /// No messages.
    pub fn none(alloc: Global) -> Sending<K>
        ensures { result ≡ [] }
    {
        Sending {
            messages: VecDeque::new(alloc),
            cluster: PhantomData,
        }
    }

    /// The node that the first message that is left is for.
    pub fn first_to(&self) -> Option<NodeNo>
        ensures some { IfSome result (IsFirstTo self.now) }
        ensures none { IfNone result (self.now ≡ []) }
    {
        Some(self.messages.front()?.to)
    }

    /// Lets the first message that is left go, if there is one.
    pub fn let_go(&mut self)
        ensures { self.new ≡ drop 1 self.old }
    {
        forget(self.messages.pop_front());
    }

    /// How many are left.
    pub fn len(&self) -> usize
        ensures { result ≡ length self.now }
    {
        self.messages.len()
    }

    /// Whether none is left.
    pub fn is_empty(&self) -> bool
        ensures { result ≡ (length self.now == 0) }
    {
        self.messages.len() == 0
    }
}

/// Each message is taken as it is given, the first one that is left before the others.
impl<K: Deployment> Iterator for Sending<K> {
    type Item = Posted<K>;

    ghost next_gives = { YieldsFirst (λ rest. rest) };

    ghost remaining = { item_count (λ rest. rest) };

    fn next(&mut self) -> Option<Posted<K>> {
        let message = self.messages.pop_front()?;
        Some(Posted {
            message,
            cluster: PhantomData,
        })
    }
}

fn forget(_message: Option<Message>) {}
