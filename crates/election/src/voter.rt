//! Whom a node votes for.
ghost use Rattle.std.specs.Prelude.{◌≡◌};
ghost use Rattle.election.specs.Health.{first_voter};
ghost use Rattle.election.specs.Voting.{after_request, may_grant};

use crate::health::Health;
use crate::members::Members;
use slot_table::{Epoch, NodeNo};
use std::marker::Model;

/// That a replica wants to be elected in the place of its master.
#[derive(Clone, Copy, PartialEq, Eq, Debug)]
pub struct VoteRequest {
    /// The replica.
    pub candidate: NodeNo,
    /// The epoch of the election.
    pub epoch: Epoch,
    /// The master.
    pub master: NodeNo,
    /// The master hands its slots over.
    pub planned: bool,
}

/// The last epoch in which a node voted: so it votes at most once an epoch. No call takes memory.
#[derive(Clone, Copy, Debug)]
pub struct Voter {
    last_vote: Epoch,
}

impl Model for Voter {
    ghost use Rattle.election.specs.Health.{Voter};

    ghost Value = { Voter };

    ghost view = { λ voter. record { last_vote = voter.last_vote } };

    ghost inverse = { λ voter. record { last_vote = voter.last_vote } };
}

impl Voter {
    /// It has not voted yet.
    pub fn new() -> Voter
        ensures { result ≡ first_voter }
    {
        Voter {
            last_vote: Epoch::new(0),
        }
    }

    /// Whether the node votes for the candidate, and then that is remembered. `current` is the greatest epoch that the node knows.
    ///
    /// It does if it is a voter, if it has not voted in this epoch or a later one, if the epoch is not below its current one, if it
    /// takes the candidate for a replica of the master, and if it holds the master failed or the master hands over.
    pub fn on_request(
        &mut self,
        members: &Members,
        health: &Health,
        current: Epoch,
        request: VoteRequest,
    ) -> bool
        ensures granted { result ≡ may_grant self.old members.now health.now current request }
        ensures state { self.new ≡ after_request self.old request result }
    {
        let grants = members.is_voter(members.me())
            && self.last_vote < request.epoch
            && current <= request.epoch
            && members.follows(request.candidate, request.master)
            && (request.planned || health.has_failed(members, request.master));
        if grants {
            self.last_vote = request.epoch;
        }
        grants
    }
}
