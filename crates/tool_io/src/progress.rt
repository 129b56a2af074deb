//! A line on the terminal that tells how far a run has come.

use std::io::IsTerminal;
use std::rt::Clock;
use std::time::{Duration, Instant};

// The line is written anew after so many milliseconds at the earliest.
const PAUSE: u64 = 100;

/// What the program prints on a terminal.
#[derive(Clone, Copy)]
pub struct Terminals {
    /// Whether it prints its output there.
    pub has_output: bool,
    /// Whether standard error goes there.
    pub has_errors: bool,
}

impl Terminals {
    /// Those of the program.
    pub fn of(rt: &HostRuntime) -> Terminals {
        Terminals {
            has_output: rt.stdout().is_terminal(),
            has_errors: rt.stderr().is_terminal(),
        }
    }
}

/// How far a run has come that moves slots, as standard error tells it where that is a terminal.
///
/// The line is written over and over in one place, and taken away before anything else is printed there.
#[derive(Clone, Copy)]
pub struct Progress {
    terminals: Terminals,
    // How many slots are to be moved.
    slots: u64,
    // When the line was last written, or when the run began. None where there is no line, or no clock.
    told: Option<Instant>,
    is_there: bool,
}

impl Progress {
    /// The progress of a run that began then, and that is to move so many slots.
    pub fn new(terminals: Terminals, slots: u64, begun: Option<Instant>) -> Progress {
        Progress {
            terminals,
            slots,
            told: if terminals.has_errors { begun } else { None },
            is_there: false,
        }
    }

    /// How many slots are to be moved.
    pub fn slots(&self) -> u64 {
        self.slots
    }

    /// Tells that so many slots are done, and how many keys were moved, where it is time to.
    pub fn tell<R: Eprint + Clock>(&mut self, rt: &R, done: u64, keys: u64) {
        let Some(told) = self.told else {
            return;
        };
        let Ok(now) = Instant::now(rt) else {
            return;
        };
        if now.saturating_duration_since(told) < Duration::from_millis(PAUSE) {
            return;
        }
        // Where it can't be told, the run goes on all the same.
        let _told = eprint!(rt;
            "\rrcluster: slots done: {done} of {}, keys moved: {keys}",
            self.slots
        );
        self.told = Some(now);
        self.is_there = true;
    }

    /// Takes the line away where the output is printed on a terminal, too, and may come to the same place.
    pub fn make_room<R: Eprint>(&mut self, rt: &R) {
        if self.terminals.has_output {
            self.end(rt);
        }
    }

    /// Takes the line away.
    pub fn end<R: Eprint>(&mut self, rt: &R) {
        if self.is_there {
            clear_line(rt);
            self.is_there = false;
        }
    }
}

/// Takes away the line on a terminal that tells how far a run has come. No such line is longer than 70 characters.
pub(crate) fn clear_line<R: Eprint>(rt: &R) {
    let _gone = eprint!(rt; "\r{:<70}\r", "");
}
