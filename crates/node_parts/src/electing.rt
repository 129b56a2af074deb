//! What a node knows of epochs, of who copies whom, and of who lives, and its part in elections.
ghost use Rattle.std.specs.Prelude.{◌≡◌, false, true, IfErr, IfOk, OnErr, OnOk};
ghost use Rattle.election.specs.Electing.{elected, judged, next_epoch};
ghost use Rattle.election.specs.Voting.{after_request};
ghost use Rattle.node_parts.specs.Electing.{election_of, first_election, seen_by, with_election, may_vote_for, with_vote};
ghost use Rattle.node_parts.specs.Noting.{note_dropped, note_of_former, with_note, without_master};
ghost use Rattle.node_step.specs.Failing.{a_tick_older, hearing, judging, members_of};
ghost use Rattle.node_step.specs.Messages.{knowing, ready};
ghost use Rattle.node_step.specs.Roles.{following, replaced_in, with_master};
ghost use Rattle.node_step.specs.Voting.{due_epoch, has_due_epoch, in_election, is_now_due};
ghost use Rattle.step_fault.specs.declared.fault.StepFault.TheVariants.{Exhausted};

use crate::masters::succeed;
use crate::parts::NodeParts;
use bus::{Body, Handing, Message, Replaced, SlotsBody};
use election::{Candidate, Elected, Health, Members, VoteRequest, Voter, is_over, older_if_any};
use repl_stream::Stream;
use slot_store::SlotParts;
use slot_table::{Epoch, NodeNo};
use step_fault::StepFault;

/// What a node knows of epochs, of who copies whom, and of who lives, and its part in elections.
///
/// It takes no memory, so a step that is refused puts back what was.
#[derive(Clone, Copy, Debug)]
pub struct ElectionState {
    /// The greatest epoch that the node knows of.
    pub current_epoch: Epoch,
    /// For each node the master that it is a replica of, if it is one.
    pub masters: [Option<NodeNo>; 16],
    /// What it heard of the others.
    pub health: Health,
    /// Its votes.
    pub voter: Voter,
    /// Its own election.
    pub candidate: Candidate,
    /// How many ticks ago the last election began for which the own master hands over, if one did.
    pub begun: Option<u32>,
    /// Whose place it took, if it was promoted.
    pub replaced: Option<Replaced>,
}

impl ElectionState {
    // That of a node as it begins, in a cluster with these masters.
    pub(crate) fn first(masters: [Option<NodeNo>; 16]) -> ElectionState
        ensures { result ≡ first_election masters }
    {
        ElectionState {
            current_epoch: Epoch::FIRST,
            masters,
            health: Health::new(),
            voter: Voter::new(),
            candidate: Candidate::new(),
            begun: None,
            replaced: None,
        }
    }
}

impl<S: SlotParts, T: Stream> NodeParts<S, T> {
    /// Who votes, and who copies whom, as the node knows it.
    pub fn members(&self) -> Members<'_>
        ensures { result ≡ members_of self.now }
    {
        Members::new(
            self.number,
            self.config.node_timeout(),
            self.config.voters(),
            self.masters(),
        )
    }

    /// What the node knows of the others, and its part in elections.
    pub fn election(&self) -> ElectionState
        ensures { seen_by self.now result ≡ election_of self.now }
    {
        self.election
    }

    /// Puts that back.
    pub fn put_back(&mut self, before: ElectionState)
        ensures { self.new ≡ with_election self.old (seen_by self.old before) }
    {
        self.election = before;
    }

    /// Takes note of what any message tells, before it is taken: its epoch, that its sender lives, and whose place that took.
    ///
    /// It gives back what the own master hands over, where that is another one now, and so has told nothing.
    pub fn hear(&mut self, message: &Message) -> Option<Handing>
        ensures state { self.new ≡ ready self.old message.now }
        ensures note { result
            ≡ note_dropped self.old message.now.from (replaced_in message.now.body) }
    {
        self.know(message.epoch);
        self.hear_from(message.from, &message.body);
        let dropped = self.follow(message.from, replaced_in(&message.body));
        self.judge();
        dropped
    }

    /// Puts back what was dropped.
    pub fn put_note_back(&mut self, dropped: Option<Handing>)
        ensures { self.new ≡ with_note self.old dropped }
    {
        if let Some(handing) = dropped {
            self.note = Some(handing);
        }
    }

    // Takes over a greater epoch.
    fn know(&mut self, epoch: Epoch)
        ensures { self.new ≡ knowing self.old epoch }
    {
        self.election.current_epoch = self.election.current_epoch.max(epoch);
    }

    // The sender of that lives, and a report says whom it suspects.
    fn hear_from(&mut self, from: NodeNo, body: &Body)
        ensures { self.new ≡ hearing self.old from body.now }
    {
        if let Body::Report(suspects) = body {
            self.election.health.on_report(from, suspects.row());
        } else {
            self.election.health.on_message(from);
        }
    }

    // Whoever followed a master that was replaced follows the node that took its place. It gives back what was noted of the own
    // master, where that was it.
    fn follow(&mut self, from: NodeNo, replaced: Option<Replaced>) -> Option<Handing>
        ensures state { self.new ≡ following self.old from replaced }
        ensures note { result ≡ note_dropped self.old from replaced }
    {
        let replaced = replaced?;
        if from == self.number {
            return None;
        }
        self.replace(replaced.master, from)
    }

    // The master has a successor. An own election is over where that was the own master, and so is what it hands over.
    fn replace(&mut self, former: NodeNo, next: NodeNo) -> Option<Handing>
        ensures state { self.new ≡ with_master self.old former next }
        ensures note { result ≡ note_of_former self.old former }
    {
        let dropped = self.forget_master(former);
        let masters = &mut self.election.masters;
        succeed(&mut masters[..], former, next);
        dropped
    }

    // An own election, and what was noted of the own master, are over where that was the own master.
    fn forget_master(&mut self, former: NodeNo) -> Option<Handing>
        ensures state { self.new ≡ without_master self.old former }
        ensures note { result ≡ note_of_former self.old former }
    {
        if self.own_master() == Some(former) {
            self.election.candidate = Candidate::new();
            self.election.begun = None;
            return self.note.take();
        }
        None
    }

    // Takes note of whether the own master is held failed.
    fn judge(&mut self)
        ensures { self.new ≡ judging self.old }
    {
        let candidate = self.judged();
        self.election.candidate = candidate;
    }

    // The own election, with that noted.
    fn judged(&self) -> Candidate
        ensures { result ≡ judged self.now.candidate (members_of self.now) self.now.health }
    {
        let members = self.members();
        let mut candidate = self.election.candidate;
        candidate.judge(&members, &self.election.health);
        candidate
    }

    /// A tick passes, which counts before anything is judged by it.
    pub fn grow_older(&mut self)
        ensures { self.new ≡ a_tick_older self.old }
    {
        self.election.health.tick();
        self.election.candidate.tick();
        self.election.begun = older_if_any(self.election.begun);
        self.judge();
    }

    /// Begins an election of this node, if it is due, and tells its epoch.
    ///
    /// Exhausted is the only fault: no epoch is left behind the current one. Then nothing changes.
    pub fn begin_election(&mut self) -> Result<Option<Epoch>, StepFault>
        ensures epoch { IfOk result (λ epoch. epoch ≡ due_epoch self.old) }
        ensures begun { OnOk result (self.new ≡ in_election self.old (due_epoch self.old)) }
        ensures left { OnOk result (has_due_epoch self.old ≡ true) }
        ensures fault { IfErr result (λ fault. fault ≡ Exhausted) }
        ensures none { OnErr result (has_due_epoch self.old ≡ false) }
        ensures err { OnErr result (self.new ≡ self.old) }
    {
        if !self.is_now_due() {
            return Ok(None);
        }
        let Some(epoch) = self.start_election() else {
            return Err(StepFault::Exhausted);
        };
        Ok(Some(epoch))
    }

    // Whether an election begins at this tick: where the master hands over, at once, and again after a while; no other begins then.
    fn is_now_due(&self) -> bool
        ensures { result ≡ is_now_due self.now }
    {
        if self.may_take_over() {
            is_over(self.election.begun, 2 * self.config.node_timeout() as u64)
        } else {
            self.election.candidate.is_due(&self.members())
        }
    }

    // Begins an election in the epoch behind the current one, and tells it, or gives none where there is none: then nothing changes.
    fn start_election(&mut self) -> Option<Epoch>
        ensures epoch { result ≡ next_epoch self.old.current_epoch }
        ensures state { self.new ≡ in_election self.old result }
    {
        let current = self.election.current_epoch;
        let epoch = if self.may_take_over() {
            let epoch = self.election.candidate.start_planned(current)?;
            self.election.begun = Some(0);
            epoch
        } else {
            self.election.candidate.start(current)?
        };
        self.election.current_epoch = epoch;
        Some(epoch)
    }

    /// Whether the node votes for the candidate, and then that is remembered.
    pub fn vote(&mut self, request: VoteRequest) -> bool
        ensures granted { result ≡ may_vote_for self.old request }
        ensures state { self.new
            ≡ record self.old { voter = after_request self.old.voter request result } }
    {
        let members = self.members();
        let mut voter = self.election.voter;
        let granted = voter.on_request(
            &members,
            &self.election.health,
            self.election.current_epoch,
            request,
        );
        self.election.voter = voter;
        granted
    }

    /// Whether the master hands over for the election that began last.
    pub fn is_election_planned(&self) -> bool
        ensures { result ≡ self.now.candidate.planned }
    {
        self.election.candidate.is_planned()
    }

    /// Counts the vote of a node for this one, and tells whether that elects it.
    pub fn count_vote(&mut self, from: NodeNo, epoch: Epoch) -> Option<Elected>
        ensures elected { result ≡ elected self.old.candidate (members_of self.old) from epoch }
        ensures state { self.new ≡ with_vote self.old from epoch }
    {
        let members = self.members();
        let mut candidate = self.election.candidate;
        let elected = candidate.on_grant(&members, from, epoch);
        self.election.candidate = candidate;
        elected
    }
}

// Whose place the sender of a claim took.
fn replaced_in(body: &Body) -> Option<Replaced>
    ensures { result ≡ replaced_in body.now }
{
    if let Body::Slots(SlotsBody::Claim(_, replaced)) = body {
        *replaced
    } else {
        None
    }
}
