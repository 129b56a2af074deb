//! For how long a run still waits for what comes of its own accord.

use crate::patient::{pause, wait_before};
use crate::waiting::tell_wait_for;
use crate::watched::Seen;
use std::cell::RefCell;
use std::fmt::Display;
use std::rt::Clock;

/// For how long a run still waits. What it asks meanwhile doesn't count. Waits that are long are told.
pub struct Patience<'a, R: Drop> {
    rt: R,
    seen: &'a RefCell<Seen>,
    milliseconds: u64,
}

impl<R: Drop> Drop for Patience<'_, R> {
    fn drop(self) {
        let Patience {
            rt: _,
            seen: _,
            milliseconds: _,
        } = self;
    }
}

impl<'a, R: Eprint + Clock + Drop> Patience<'a, R> {
    /// At most this many seconds.
    pub fn new(rt: R, seen: &'a RefCell<Seen>, seconds: u64) -> Patience<'a, R> {
        Patience {
            rt,
            seen,
            milliseconds: seconds.saturating_mul(1000),
        }
    }

    /// Waits for this before it is looked for again, which it has been so often already. It says whether there is time for that.
    pub fn wait<W: Display + Drop>(&mut self, turn: u64, awaited: W) -> bool {
        let Some(left) = self.milliseconds.checked_sub(wait_before(turn)) else {
            return false;
        };
        self.milliseconds = left;
        tell_wait_for(&self.rt, self.seen, awaited);
        pause(&self.rt, turn);
        true
    }
}
