//! An election that runs.
ghost use Rattle.std.specs.Prelude.{◌≡◌, ◌&&◌, Some, count_by, false, slice_index_or};
ghost use Rattle.election.specs.Electing.{after_grant, counts, elected_in, is_won, unless_won, with_grant};
ghost use Rattle.election.specs.Health.{row};

use crate::members::Members;
use slot_table::{Epoch, NodeNo};
use std::marker::Model;

/// That an election is won: the node takes the place of its master.
#[derive(Clone, Copy, PartialEq, Eq, Debug)]
pub struct Elected {
    /// The epoch of the election.
    pub epoch: Epoch,
}

// The epoch of an election, and who granted it.
#[derive(Clone, Copy, Debug)]
pub(crate) struct Election {
    epoch: Epoch,
    // For each node whether it granted it.
    granted: [bool; 16],
}

impl Model for Election {
    ghost use Rattle.election.specs.Health.{Election};

    ghost Value = { Election };

    ghost view = { λ election. record { epoch = election.epoch; granted = election.granted } };

    ghost inverse = { λ election. record { epoch = election.epoch; granted = election.granted } };
}

impl Election {
    // One that nobody granted yet.
    pub(crate) fn new(epoch: Epoch) -> Election
        ensures { result ≡ record { epoch = epoch; granted = row false } }
    {
        Election {
            epoch,
            granted: [false; 16],
        }
    }

    // Whether a grant of that epoch is one of this election, and of a voter.
    pub(crate) fn counts(&self, members: &Members, from: NodeNo, epoch: Epoch) -> bool
        ensures { result ≡ counts self.now members.now from epoch }
    {
        self.epoch == epoch && members.is_voter(from)
    }

    // The node granted it, maybe once more.
    pub(crate) fn with_grant(self, from: NodeNo) -> Election
        ensures { result ≡ with_grant self from }
    {
        let mut granted = self.granted;
        granted[from.index()] = true;
        Election {
            epoch: self.epoch,
            granted,
        }
    }

    // Whether more than half of the voters granted it.
    pub(crate) fn is_won(&self, members: &Members) -> bool
        ensures { result ≡ is_won self.now members.now }
    {
        members.are_most(count_granted(&self.granted, members.voters()))
    }

    // Whether it is won by a grant of that epoch.
    fn is_won_by(&self, members: &Members, from: NodeNo, epoch: Epoch) -> bool
        ensures { result ≡ (counts self.now members.now from epoch && is_won (with_grant self.now from) members.now) }
    {
        self.counts(members, from, epoch) && self.with_grant(from).is_won(members)
    }

    // Whether a grant of that epoch elects the node.
    pub(crate) fn elected(self, members: &Members, from: NodeNo, epoch: Epoch) -> Option<Elected>
        ensures { result ≡ elected_in (Some self) members.now from epoch }
    {
        if self.is_won_by(members, from, epoch) {
            Some(Elected { epoch })
        } else {
            None
        }
    }

    // What is left of it behind a grant of that epoch.
    pub(crate) fn after_grant(
        self,
        members: &Members,
        from: NodeNo,
        epoch: Epoch,
    ) -> Option<Election>
        ensures { result ≡ after_grant (Some self) members.now from epoch }
    {
        if self.counts(members, from, epoch) {
            self.with_grant(from).unless_won(members)
        } else {
            Some(self)
        }
    }

    // It, unless it is won.
    fn unless_won(self, members: &Members) -> Option<Election>
        ensures { result ≡ unless_won self members.now }
    {
        if self.is_won(members) {
            None
        } else {
            Some(self)
        }
    }
}

// How many of the voters granted it.
fn count_granted(granted: &[bool; 16], voters: &[NodeNo]) -> usize
    ensures { result ≡ count_by (λ voter. slice_index_or granted.now voter false) voters.now }
{
    voters.iter().filter(|voter| granted[voter.index()]).count()
}
