//! Whether the clients of a node wait for each other.

use std::time::Duration;

// Threads that come to sleep so often in a second, as they wait for their node, are a crowd.
const CROWD: u64 = 1_000;

// For how many ticks they have to do so.
const TICKS: u32 = 10;

/// Watches how often the threads of a node's clients sleep until the node is free, from tick to tick.
#[derive(Clone, Copy)]
pub(crate) struct Crowd {
    // How often they sleep in a tick where they are a crowd. Nobody watches without it, or once a crowd has come.
    many: Option<u64>,
    // How often they had slept at the last tick.
    sleeps: u64,
    // How many ticks they have been a crowd in a row.
    ticks: u32,
}

impl Crowd {
    /// Watched if the clients have threads of their own, where a tick takes this time.
    pub(crate) fn watched(have_threads: bool, tick: Duration) -> Crowd {
        let many = (tick.as_millis().min(1_000_000) as u64) * CROWD / 1_000;
        Crowd {
            many: if have_threads {
                Some(many.max(1))
            } else {
                None
            },
            sleeps: 0,
            ticks: 0,
        }
    }

    /// Whether the threads, which have slept so often by now, have become a crowd. It comes once.
    pub(crate) fn has_come(&mut self, sleeps: u64) -> bool {
        let Some(many) = self.many else {
            return false;
        };
        let more = sleeps.saturating_sub(self.sleeps);
        self.sleeps = sleeps;
        self.ticks = if more >= many {
            self.ticks.saturating_add(1)
        } else {
            0
        };
        if self.ticks < TICKS {
            return false;
        }
        self.many = None;
        true
    }
}
