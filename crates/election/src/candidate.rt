//! The election of a replica in the place of its master.
ghost use Rattle.std.specs.Prelude.{◌≡◌, ◌*◌};
ghost use Rattle.election.specs.Electing.{after_grant, begun, begun_planned, counted, elected, elected_in, is_due, is_held_failed, is_past, judged, lasting, next_epoch, ticked_candidate};
ghost use Rattle.election.specs.Health.{no_candidate};

use crate::ages::{is_over, older_if_any};
use crate::health::Health;
use crate::members::Members;
use crate::running::{Elected, Election};
use slot_table::{Epoch, NodeNo};
use std::marker::Model;

/// A node's own election: since when it holds its master failed, when it began an election since, and the one that runs.
///
/// No call takes memory.
#[derive(Clone, Copy, Debug)]
pub struct Candidate {
    // How many ticks ago the own master came to be held failed, if it is.
    failed: Option<u32>,
    // How many ticks ago an election began since, if one did.
    started: Option<u32>,
    // The one that runs.
    election: Option<Election>,
    // Whether the master hands its slots over for it.
    planned: bool,
}

impl Model for Candidate {
    ghost use Rattle.election.specs.Health.{Candidate};

    ghost Value = { Candidate };

    ghost view = { λ candidate. record {
      failed = candidate.failed;
      started = candidate.started;
      election = candidate.election;
      planned = candidate.planned;
    } };

    ghost inverse = { λ candidate. record {
      failed = candidate.failed;
      started = candidate.started;
      election = candidate.election;
      planned = candidate.planned;
    } };
}

impl Candidate {
    /// No election runs, and the own master, if there is one, is not held failed yet.
    pub fn new() -> Candidate
        ensures { result ≡ no_candidate }
    {
        Candidate {
            failed: None,
            started: None,
            election: None,
            planned: false,
        }
    }

    /// A tick of the node passes.
    pub fn tick(&mut self)
        ensures { self.new ≡ ticked_candidate self.old }
    {
        self.failed = older_if_any(self.failed);
        self.started = older_if_any(self.started);
    }

    /// Takes note of whether the own master is held failed now. It is for the end of each step that may change that.
    ///
    /// Once it isn't, the ticks since then count no more; an election that runs goes on.
    pub fn judge(&mut self, members: &Members, health: &Health)
        ensures { self.new ≡ judged self.old members.now health.now }
    {
        if is_held_failed(health, members, members.own_master()) {
            self.failed = lasting(self.failed);
        } else {
            self.failed = None;
            self.started = None;
        }
    }

    /// Whether an election is to begin at this tick.
    ///
    /// The own master has been held failed for more ticks than replicas of it have smaller numbers, and no election has begun
    /// since, or the last one as long ago as two times the ticks that a node may be silent.
    pub fn is_due(&self, members: &Members) -> bool
        ensures { result ≡ is_due self.now members.now }
    {
        let Some(master) = members.own_master() else {
            return false;
        };
        is_past(self.failed, members.place_behind(master))
            && is_over(self.started, 2 * members.node_timeout() as u64)
    }

    /// Begins an election, and ends one that runs. It answers the epoch of the election, the one behind `current`, or `None` where
    /// that is the last one: then nothing changes.
    pub fn start(&mut self, current: Epoch) -> Option<Epoch>
        ensures epoch { result ≡ next_epoch current }
        ensures state { self.new ≡ begun self.old result }
    {
        let epoch = Epoch::new(current.get().checked_add(1)?);
        self.started = Some(0);
        self.election = Some(Election::new(epoch));
        self.planned = false;
        Some(epoch)
    }

    /// The same where the master hands its slots over: it is apart from the waits for a master that is held failed.
    pub fn start_planned(&mut self, current: Epoch) -> Option<Epoch>
        ensures epoch { result ≡ next_epoch current }
        ensures state { self.new ≡ begun_planned self.old result }
    {
        let next = Epoch::new(current.get().checked_add(1)?);
        self.election = Some(Election::new(next));
        self.planned = true;
        Some(next)
    }

    /// Whether the master hands its slots over for the election that began last.
    pub fn is_planned(&self) -> bool
        ensures { result ≡ self.now.planned }
    {
        self.planned
    }

    /// A node votes for this one in that epoch. It counts once, if an election of that epoch runs and the node is a voter.
    ///
    /// Once more than half of the voters have voted for it, the election is over, and this node is elected.
    pub fn on_grant(&mut self, members: &Members, from: NodeNo, epoch: Epoch) -> Option<Elected>
        ensures elected { result ≡ elected self.old members.now from epoch }
        ensures state { self.new ≡ counted self.old members.now from epoch }
    {
        let elected = elected_in(self.election, members, from, epoch);
        self.election = after_grant(self.election, members, from, epoch);
        elected
    }

    /// The own master is another one, or none any more: an election that runs is over.
    pub fn forget(&mut self)
        ensures { self.new ≡ no_candidate }
    {
        *self = Candidate::new();
    }
}

// Whether the grant elects this node, if an election runs.
fn elected_in(
    election: Option<Election>,
    members: &Members,
    from: NodeNo,
    epoch: Epoch,
) -> Option<Elected>
    ensures { result ≡ elected_in election members.now from epoch }
{
    match election {
        None => None,
        Some(running) => running.elected(members, from, epoch),
    }
}

// The election behind the grant, if one runs, and is not over by it.
fn after_grant(
    election: Option<Election>,
    members: &Members,
    from: NodeNo,
    epoch: Epoch,
) -> Option<Election>
    ensures { result ≡ after_grant election members.now from epoch }
{
    match election {
        None => None,
        Some(running) => running.after_grant(members, from, epoch),
    }
}

// Whether the own master, if there is one, is held failed.
fn is_held_failed(health: &Health, members: &Members, master: Option<NodeNo>) -> bool
    ensures { result ≡ is_held_failed health.now members.now master }
{
    match master {
        None => false,
        Some(master) => health.has_failed(members, master),
    }
}

// The age of what lasts, or what begins now.
fn lasting(age: Option<u32>) -> Option<u32>
    ensures { result ≡ lasting age }
{
    Some(age.unwrap_or(0))
}

// Whether it is held so for more ticks than that.
fn is_past(age: Option<u32>, place: usize) -> bool
    ensures { result ≡ is_past age place }
{
    match age {
        None => false,
        Some(age) => place < age as usize,
    }
}
