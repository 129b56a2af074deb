//! How long a run has waited, and what standard error is told of it.

use crate::progress::{Terminals, clear_line};
use crate::telling::Awaited;
use crate::watched::Seen;
use std::cell::RefCell;
use std::fmt::Display;
use std::rt::Clock;
use std::time::{Duration, Instant};

// After how many seconds a wait is told for the first time.
const FIRST: u64 = 3;

/// How long a run has waited since it last came on, and after how long a wait that is told next.
#[derive(Clone, Copy)]
pub struct Waiting {
    terminals: Terminals,
    // When the run last came on. None where waits aren't told, or where there is no clock.
    since: Option<Instant>,
    next: Duration,
}

impl Waiting {
    /// The waits of a tool that tells none.
    pub fn untold() -> Waiting {
        Waiting::new(
            Terminals {
                has_output: false,
                has_errors: false,
            },
            None,
        )
    }

    /// The waits of a run that began then.
    pub fn new(terminals: Terminals, begun: Option<Instant>) -> Waiting {
        Waiting {
            terminals,
            since: begun,
            next: Duration::from_secs(FIRST),
        }
    }

    /// The run has come on.
    pub fn end<R: Clock>(&mut self, rt: &R) {
        if self.since.is_some() {
            *self = Waiting::new(self.terminals, Instant::now(rt).ok());
        }
    }

    // How many seconds the run has waited, where that is to be told now. It is told next when it has waited twice as long.
    fn take_due<R: Clock>(&mut self, rt: &R) -> Option<u64> {
        let waited = self.since?.elapsed(rt).ok()?;
        if waited < self.next {
            return None;
        }
        self.next = waited.saturating_mul(2);
        Some(waited.as_secs())
    }
}

/// Tells for how long the run has waited, and for what, where it is time to. It gives whether it is.
pub(crate) fn tell_wait<R: Eprint + Clock>(rt: &R, seen: &RefCell<Seen>) -> bool {
    let Ok(mut seen) = seen.try_borrow_mut() else {
        return false;
    };
    let Some(seconds) = seen.waiting.take_due(rt) else {
        return false;
    };
    let terminals = seen.waiting.terminals;
    tell(rt, terminals, seconds, Awaited { seen: &*seen });
    true
}

/// Tells for how long the run has waited, and that it waits for this, where it is time to.
pub(crate) fn tell_wait_for<R: Eprint + Clock, W: Display + Drop>(
    rt: &R,
    seen: &RefCell<Seen>,
    awaited: W,
) {
    let Ok(mut seen) = seen.try_borrow_mut() else {
        return;
    };
    let Some(seconds) = seen.waiting.take_due(rt) else {
        return;
    };
    let terminals = seen.waiting.terminals;
    tell(rt, terminals, seconds, awaited);
}

// Where it can't be told, the run waits all the same.
fn tell<R: Eprint, W: Display + Drop>(rt: &R, terminals: Terminals, seconds: u64, awaited: W) {
    // The line on a terminal that tells how far the run has come is written anew behind this one.
    if terminals.has_errors {
        clear_line(rt);
    }
    let _told = eprintln!(rt; "rcluster: waiting for {seconds} seconds so far: {awaited}");
}

/// How much time has passed since then. Without a clock it is none.
pub fn time_since<R: Clock>(rt: &R, begun: Option<Instant>) -> Duration {
    begun
        .and_then(|begun| begun.elapsed(rt).ok())
        .unwrap_or(Duration::ZERO)
}
