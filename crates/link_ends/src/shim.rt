//! A bad network: messages that have come over a link are lost, given again, or given later.
ghost use Rattle.std.specs.Prelude.{◌≡◌, ◌+◌, ◌++◌, ◌∷◌, ◌≤◌, ◌<◌, [], Contains, IfNone, IfSome, OnErr, OnOk, refl, replicate};
ghost use Rattle.std.specs.VecDeque.{deque_capacity, deque_len};
ghost use Rattle.link_ends.specs.Giving.{HasReceived};
ghost use Rattle.link_ends.specs.Halves.{WasFull};
ghost use Rattle.link_ends.specs.Shims.{GivesNothing, GivesOne, IsDone, at_once, fresh, given_by};

use crate::acts::{Act, Acts};
use crate::end::LinkEnd;
use crate::held::{Held, release};
use crate::port_end::PortEnd;
use crate::repeated::Repeated;
use bus::Link;
use std::alloc::{AllocError, Global};
use std::collections::VecDeque;
use std::marker::Model;

/// A bad network in front of an end of a link: of what is received there it gives what a list of acts says.
///
/// The first act is for the first message that is received, and so on; behind the last act all messages are given as they come. As a message comes,
/// first comes what is given of it at once, and then each message that was held until then, in the order in which they were received. A message
/// of an [`Act::Repeat`] is given once less for each copy that finds no memory. What is sent goes out as it is.
pub struct Shim<L: Link>
where
    L::Carried: Repeated,
{
    inner: L,
    acts: Acts,
    // What is given before anything else is received.
    coming: VecDeque<L::Carried>,
    held: VecDeque<Held<L::Carried>>,
}

impl<L: Link> Model for Shim<L>
where
    L::Carried: Repeated,
{
    ghost use Rattle.link_ends.specs.Shims.{IsShim, ShimView};

    ghost Value = { ShimView L L.Carried };

    ghost view = { λ shim.
        record { inner = shim.inner; acts = shim.acts.all; coming = shim.coming.items } };

    ghost invariant = { λ shim.
        IsShim shim.acts (L.received shim.inner) shim.coming.items shim.held.items };
}

impl<L: Link + Drop> Drop for Shim<L>
where
    L::Carried: Repeated,
{
    fn drop(self) {
        let Shim {
            inner: _,
            acts: _,
            coming: _,
            held: _,
        } = self;
    }
}

impl<L: Link> Shim<L>
where
    L::Carried: Repeated,
{
    /// These acts in front of an end at which nothing was received yet.
    pub fn new(alloc: Global, inner: L, acts: Vec<Act>) -> Shim<L>
        requires { L.received inner ≡ [] }
        ensures { result ≡ record { inner = inner; acts = acts.items; coming = [] } }
    {
        Shim {
            inner,
            acts: Acts::new(acts),
            coming: VecDeque::new(alloc),
            held: VecDeque::new(alloc),
        }
    }

    // What is coming, if something is.
    fn next_coming(&mut self) -> Option<L::Carried>
        ensures rest { self.new ≡ record self.old { coming = self.new.coming } }
        ensures given { IfSome result (GivesOne L.received self.old self.new) }
        ensures none { IfNone result ((self.new ≡ self.old) × (self.old.coming ≡ [])) }
    {
        let message = self.coming.pop_front()?;
        Some(message)
    }
}

impl<E: PortEnd> Shim<E>
where
    E::Carried: Repeated,
{
    // The same, where all acts are done: then a message that is received is given.
    fn last_try(&mut self) -> Option<E::Carried>
        ensures received { HasReceived (E.giving self.old.inner).end (E.giving self.new.inner).end }
        ensures given { IfSome result (GivesOne E.received self.old self.new) }
        ensures none { IfNone result (GivesNothing E.received self.old self.new) }
    {
        if let Some(message) = self.next_coming() {
            return Some(message);
        }
        self.take_in()?;
        self.next_coming()
    }

    // Receives the next message, if there is one and there is memory, and has come what is given then.
    fn take_in(&mut self) -> Option<()>
        requires { self.old.coming ≡ [] }
        ensures received { HasReceived (E.giving self.old.inner).end (E.giving self.new.inner).end }
        ensures given { given_by E.received self.new ≡ given_by E.received self.old }
        ensures none { IfNone result (self.new.coming ≡ []) }
    {
        let room = self.held.len().checked_add(1)?;
        self.coming.reserve(room).ok()?;
        self.held.reserve(1).ok()?;
        let message = self.inner.receive()?;
        let act = self.acts.next();
        let done = put_in(act, message, room, &mut self.held, &mut self.coming);
        self.acts.note(done);
        release(&mut self.held, &mut self.coming);
        Some(())
    }
}

impl<E: PortEnd> Link for Shim<E>
where
    E::Carried: Repeated,
{
    ghost use Rattle.std.specs.Prelude.{⊤};

    type Carried = E::Carried;

    ghost sent = { λ shim. (E.giving shim.inner).end.sent };

    ghost received = { given_by E.received };

    ghost may_hand_back = { λ shim. WasFull (E.giving shim.inner).end.sent };

    // What is held comes later.
    ghost may_give_none = { λ _. ⊤ };

    fn send(&mut self, carried: E::Carried) -> Result<(), E::Carried> {
        self.post(carried)
    }

    fn try_receive(&mut self) -> Option<E::Carried> {
        self.receive()
    }
}

impl<E: PortEnd> PortEnd for Shim<E>
where
    E::Carried: Repeated,
{
    ghost use Rattle.std.proofs.Common.{subst};
    ghost use Rattle.link_ends.specs.Received.{has_come};

    type Handle = E::Handle;

    ghost giving = { λ shim.
        record { end = (E.giving shim.inner).end; given = given_by E.received shim } };

    ghost as_link = { λ shim. refl };

    ghost came = { λ shim message given.
        E.came shim.inner message
        (subst (λ all. Contains all message) (E.as_link shim.inner)
        (has_come shim.acts (E.received shim.inner) shim.coming message given)) };

    fn post(&mut self, message: E::Carried) -> Result<(), E::Carried> {
        self.inner.post(message)
    }

    // There may be nothing to give where something has come: what is held comes later, and where memory is refused nothing is received.
    fn receive(&mut self) -> Option<E::Carried> {
        for _ in 0..self.acts.left() {
            if let Some(message) = self.next_coming() {
                return Some(message);
            }
            self.take_in()?;
        }
        self.last_try()
    }

    fn on_the_way(&mut self) -> usize {
        self.inner.on_the_way()
    }

    // Several messages may be received for one that is given, so the moment may have passed: the sender is told each time.
    fn is_half_full(&mut self) -> bool {
        true
    }

    fn tell_act(&mut self) -> Option<Act> {
        self.acts.tell()
    }

    // What is held is lost.
    fn into_end(self) -> LinkEnd<E::Carried, E::Handle> {
        let Shim {
            inner,
            acts: _,
            coming: _,
            held: _,
        } = self;
        inner.into_end()
    }
}

// Does the act to the message, which has just come, and says how it was done. There is room for it, and for those that are held.
fn put_in<T: Repeated>(
    act: Act,
    message: T,
    room: usize,
    held: &mut VecDeque<Held<T>>,
    coming: &mut VecDeque<T>,
) -> Act
    requires room { deque_len held.old + 1 ≤ room }
    requires held_room { deque_len held.old < deque_capacity held.old }
    requires coming_room { deque_len coming.old + room ≤ deque_capacity coming.old }
    ensures done { IsDone act result }
    ensures coming { coming.new.items ≡ coming.old.items ++ at_once (result, message) }
    ensures held { held.new.items ≡ held.old.items ++ fresh (result, message) }
    ensures room { deque_len coming.new + deque_len held.new ≤ deque_capacity coming.new }
{
    match act {
        Act::Pass => {
            coming.push_back_reserved(message);
            Act::Pass
        }
        Act::Lose => {
            drop(message);
            Act::Lose
        }
        Act::Repeat(more) => {
            let made = repeat(&message, more, room, coming);
            coming.push_back_reserved(message);
            Act::Repeat(made)
        }
        Act::Hold(further) => {
            held.push_back_reserved(Held {
                left: u64::from(further) + 1,
                message,
            });
            Act::Hold(further)
        }
    }
}

// Puts so many copies of the message behind what is coming, as far as there is memory for them, and says how many. There is as much room as before.
fn repeat<T: Repeated>(message: &T, more: u32, room: usize, coming: &mut VecDeque<T>) -> u32
    requires { deque_len coming.old + room ≤ deque_capacity coming.old }
    ensures count { result ≤ more }
    ensures coming { coming.new.items ≡ coming.old.items ++ replicate result message.now }
    ensures room { deque_len coming.new + room ≤ deque_capacity coming.new }
{
    let mut made = 0;
    for _ in 0..more {
        if let Ok(()) = put_copy(message, room, coming) {
            made += 1;
        }
    }
    made
}

// Puts a copy of the message behind what is coming.
fn put_copy<T: Repeated>(
    message: &T,
    room: usize,
    coming: &mut VecDeque<T>,
) -> Result<(), AllocError>
    requires { deque_len coming.old + room ≤ deque_capacity coming.old }
    ensures ok { OnOk result (coming.new.items ≡ coming.old.items ++ message.now ∷ []) }
    ensures err { OnErr result (coming.new.items ≡ coming.old.items) }
    ensures room { deque_len coming.new + room ≤ deque_capacity coming.new }
{
    let copy = message.again()?;
    let Some(more) = room.checked_add(1) else {
        return Err(AllocError);
    };
    coming.reserve(more)?;
    coming.push_back_reserved(copy);
    Ok(())
}
