//! A way to the nodes that waits before the same is asked again.

use crate::waiting::tell_wait;
use crate::watched::Seen;
use resp2::Reply;
use smart_client::{Action, Event, Network};
use std::cell::RefCell;
use std::rt::Clock;
use std::thread::{sleep, yield_now};
use std::time::Duration;

/// A way to the nodes for who asks the same again where a node refuses it: before each repetition others may run, and from the
/// tenth on it waits. Waits that are long are told. Each request begins with a connection.
pub struct Patient<'a, R: Drop, N: Network + Drop> {
    rt: R,
    network: N,
    seen: &'a RefCell<Seen>,
}

impl<R: Drop, N: Network + Drop> Drop for Patient<'_, R, N> {
    fn drop(self) {
        let Patient {
            rt: _,
            network: _,
            seen: _,
        } = self;
    }
}

impl<'a, R: Drop, N: Network + Drop> Patient<'a, R, N> {
    /// The same way, with as many refusals as were seen.
    pub fn new(rt: R, network: N, seen: &'a RefCell<Seen>) -> Patient<'a, R, N> {
        Patient { rt, network, seen }
    }
}

impl<R: Eprint + Clock + Drop, N: Network + Drop> Network for Patient<'_, R, N> {
    ghost deeds = { λ patient. N.deeds patient.network };

    ghost pool = { λ patient. N.pool patient.network };

    ghost wires = { λ patient. N.wires patient.network };

    fn perform(&mut self, action: Action) -> Event {
        let refusals = refusals_in(self.seen);
        if refusals > 0 && matches!(&action, Action::Connect(_)) {
            tell_wait(&self.rt, self.seen);
            pause(&self.rt, refusals);
        }
        let event = self.network.perform(action);
        let refusals = refusals_after(refusals, &event);
        note_refusals(self.seen, refusals);
        if refusals == 0 {
            end_wait(&self.rt, self.seen);
        }
        event
    }

    fn close(&mut self) {
        self.network.close();
    }
}

/// The run has come on, and waits anew.
pub fn end_wait<R: Clock>(rt: &R, seen: &RefCell<Seen>) {
    if let Ok(mut seen) = seen.try_borrow_mut() {
        seen.waiting.end(rt);
    }
}

/// Another command begins, of which nothing was refused yet.
pub fn forget_refusals(seen: &RefCell<Seen>) {
    note_refusals(seen, 0);
}

fn note_refusals(seen: &RefCell<Seen>, refusals: u64) {
    if let Ok(mut seen) = seen.try_borrow_mut() {
        seen.refusals = refusals;
    }
}

// Where that can't be seen now, it is none.
fn refusals_in(seen: &RefCell<Seen>) -> u64 {
    match seen.try_borrow() {
        Ok(seen) => seen.refusals,
        Err(_) => 0,
    }
}

fn refusals_after(refusals: u64, event: &Event) -> u64 {
    match event {
        Event::Reply(Reply::Error(_)) => refusals.saturating_add(1),
        Event::Reply(_) => 0,
        _ => refusals,
    }
}

/// Lets others run before the repetition of that number, and waits as long as [`wait_before`] says.
pub(crate) fn pause<R: Clock>(rt: &R, repetition: u64) {
    yield_now();
    let milliseconds = wait_before(repetition);
    if milliseconds > 0 {
        sleep(rt, Duration::from_millis(milliseconds));
    }
}

/// How many milliseconds it waits before the repetition of that number.
pub(crate) fn wait_before(repetition: u64) -> u64 {
    match repetition {
        0..=9 => 0,
        10 => 1,
        11 => 2,
        12 => 4,
        13 => 8,
        14 => 16,
        15 => 32,
        16 => 64,
        _ => 100,
    }
}
