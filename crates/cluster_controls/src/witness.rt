//! What happens to a cluster, for somebody who listens: what no client is told, which slots come and go, who hands over, and who is promoted.

use crate::status::NodeStatus;
use link_ends::Act;
use std::alloc::{AllocError, Global};
use std::collections::VecDeque;
use std::rt::Clock;
use std::sync::{Condvar, Mutex, Wait};
use std::time::{Duration, Instant};

// How many incidents wait to be heard at most. Where more come they are only counted.
const MOST_WAITING: usize = 1024;

/// What there is none of.
#[derive(Clone, Copy, PartialEq, Eq, Debug)]
pub enum Shortage {
    /// Memory was refused.
    Memory,
    /// The system starts no thread.
    Thread,
    /// The system opens no socket.
    Descriptor,
}

impl From<AllocError> for Shortage {
    fn from(_refused: AllocError) -> Shortage {
        Shortage::Memory
    }
}

/// What happens. A node and a slot are named by their numbers.
#[derive(Clone, Copy, PartialEq, Eq, Debug)]
pub enum Incident {
    /// A client of the node isn't served for want of this.
    ClientRefused {
        node: usize,
        shortage: Shortage,
    },
    /// A thread of the node isn't started for want of this, and so the cluster isn't served.
    ThreadNotStarted {
        node: usize,
        shortage: Shortage,
    },
    /// A slot that was `from` another node is the node's own now: its move is over. The node holds so many keys of it.
    SlotArrived {
        node: usize,
        slot: u16,
        from: usize,
        keys: usize,
    },
    /// A slot that was the node's own is another node's now: its move is over. So many keys of it that the node held are deleted.
    SlotLeft {
        node: usize,
        slot: u16,
        to: usize,
        deleted: usize,
    },
    /// The node, a master, hands its slots over to a replica: it serves none of them from now on. Its stream of writes has so many bytes.
    HandoverBegun {
        node: usize,
        replica: usize,
        offset: u64,
    },
    /// The node, a replica, noted that its master hands over, whose stream has so many bytes. It has received so many of them.
    HandoverNoted {
        node: usize,
        master: usize,
        offset: u64,
        received: u64,
    },
    /// The node took the place of its master in that epoch, which handed over, if it was planned: it has so many bytes of that one's stream of
    /// writes.
    Promoted {
        node: usize,
        master: usize,
        epoch: u64,
        offset: u64,
        is_planned: bool,
    },
    /// A bad network did this to a message that the node received `from` another one.
    ActDone {
        node: usize,
        from: usize,
        act: Act,
    },
    /// The node's clients have waited for each other for some time.
    ClientsCrowd {
        node: usize,
    },
    /// The node is stopped, and the others are served on.
    Stopped {
        node: usize,
    },
    /// How a node is, because that was asked or its time has come.
    Status(NodeStatus),
    /// How many incidents found too many others waiting.
    Missed(u64),
}

impl Incident {
    // Whether it is for somebody who wants to hear this.
    fn is_for(&self, hearing: Hearing) -> bool {
        match hearing {
            Hearing::All => true,
            Hearing::Answers => self.is_advice() || self.is_answer(),
            Hearing::Advice => self.is_advice(),
        }
    }

    // Whether it is for whoever runs the cluster, in place of for its log.
    fn is_advice(&self) -> bool {
        matches!(self, Incident::ClientsCrowd { .. })
    }

    // Whether it answers an order.
    fn is_answer(&self) -> bool {
        matches!(self, Incident::Stopped { .. } | Incident::Status(_))
    }
}

/// What somebody wants to hear.
#[derive(Clone, Copy, PartialEq, Eq, Debug)]
pub enum Hearing {
    /// All incidents.
    All,
    /// What answers orders, and advice.
    Answers,
    /// What is well to know for whoever runs the cluster, and nothing else.
    Advice,
}

/// An incident, and how long after the beginning it happened.
#[derive(Clone, Copy, PartialEq, Eq, Debug)]
pub struct Heard {
    pub time: Duration,
    pub incident: Incident,
}

/// Sees what happens to a cluster, and tells it to whoever listens. Who sees something waits for nobody but others that see
/// something, however slow the listener is.
#[derive(Drop)]
pub struct Witness {
    // What somebody wants to hear, and the beginning, where somebody listens.
    listener: Option<(Hearing, Instant)>,
    seen: Mutex<Seen>,
    // It rings where something waits to be heard, and at the end.
    bell: Condvar,
}

#[derive(Drop)]
struct Seen {
    waiting: VecDeque<Heard>,
    // How many found no room, and when the last of them happened.
    missed: u64,
    missed_at: Duration,
    has_ended: bool,
}

impl Witness {
    /// One to which nobody listens, so that it sees nothing.
    pub fn without_listener(alloc: Global) -> Witness {
        Witness::over(None, VecDeque::new(alloc))
    }

    /// One to which somebody listens who wants to hear this. Now is the beginning, where there is a clock.
    pub fn with_listener<R: Clock>(
        rt: &R,
        alloc: Global,
        hearing: Hearing,
    ) -> Result<Witness, AllocError> {
        let waiting = VecDeque::with_capacity(alloc, MOST_WAITING)?;
        let listener = Instant::now(rt).ok().map(|begun| (hearing, begun));
        Ok(Witness::over(listener, waiting))
    }

    fn over(listener: Option<(Hearing, Instant)>, waiting: VecDeque<Heard>) -> Witness {
        let seen = Seen {
            waiting,
            missed: 0,
            missed_at: Duration::ZERO,
            has_ended: false,
        };
        Witness {
            listener,
            seen: Mutex::new(seen),
            bell: Condvar::new(),
        }
    }

    /// Whether somebody listens who wants to hear all.
    pub fn wants_all(&self) -> bool {
        matches!(self.listener, Some((Hearing::All, _)))
    }

    // When the beginning was, if somebody wants to hear this.
    fn begun_for(&self, incident: Incident) -> Option<Instant> {
        let (hearing, begun) = self.listener?;
        match incident.is_for(hearing) {
            true => Some(begun),
            false => None,
        }
    }

    /// Sees the incident. It waits for no listener, so it may be called behind the lock of a node.
    pub fn see<R: Clock + Wait>(&self, rt: &R, incident: Incident) {
        let Some(begun) = self.begun_for(incident) else {
            return;
        };
        // The times of incidents rise as they are told, so the clock is read behind the lock.
        let mut seen = self.seen.lock(rt);
        let time = begun.elapsed(rt).unwrap_or(Duration::ZERO);
        seen.add(Heard { time, incident });
        self.bell.notify_all();
    }

    /// Waits for what is to be heard next. There is None once nothing more will come.
    pub fn listen<R: Wait>(&self, rt: &R) -> Option<Heard> {
        let seen = self.seen.lock(rt);
        let mut seen = self.bell.wait_while(rt, seen, |seen| {
            seen.waiting.is_empty() && !seen.has_ended
        });
        seen.take()
    }

    /// Nothing more will come.
    pub fn end<R: Wait>(&self, rt: &R) {
        let mut seen = self.seen.lock(rt);
        seen.has_ended = true;
        self.bell.notify_all();
    }
}

impl Seen {
    fn add(&mut self, heard: Heard) {
        let has_room = self.waiting.len() < MOST_WAITING;
        if !has_room || self.waiting.push_back(heard).is_err() {
            self.missed = self.missed.saturating_add(1);
            self.missed_at = heard.time;
        }
    }

    // Behind what waits comes how many found no room there.
    fn take(&mut self) -> Option<Heard> {
        let heard = self.waiting.pop_front();
        if self.missed > 0 {
            let missed = Heard {
                time: self.missed_at,
                incident: Incident::Missed(self.missed),
            };
            self.missed = 0;
            self.add(missed);
        }
        heard
    }
}
