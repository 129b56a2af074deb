//! What a run does next.
ghost use Rattle.std.specs.Prelude.{◌≡◌, IfOk, slice_get, Some};
ghost use Rattle.resharder.specs.Replies.{answer_of, keys_in, nodes_in, report_in};
ghost use Rattle.resharder.specs.Step.{again, answered, asks, begins_at, counted, destination_read, ended_at, ended_at_destination, found, keys_listed, keys_moved, next_other, number_of, numbered, place_at, replied, source_read, started, takes, then_takes, turn, words_at};
ghost use Rattle.resharder.specs.Step.Turn.{Reads};
ghost use Rattle.resharder.specs.Turns.{Makes, prints_line};

use crate::action::{Action, Event};
use crate::answer::Answer;
use crate::fault::ReshardFault;
use crate::key::Keys;
use crate::migration::Migration;
use crate::nodes::Nodes;
use crate::order::{keys_words, migrate_words, set_words, slots_words, state_words};
use crate::plan::Plan;
use crate::report::{Report, next_number, positive};
use crate::stage::{Source, Stage, Step, Work};
use command_table::SlotOrder;
use key_slot::{MoveNo, Slot};
use redirection::Address;
use resp_values::{Reply, Words};
use std::alloc::{AllocError, Global};

/// What a run waits for from now on, and what it wants done.
#[derive(Drop)]
pub(crate) struct Made {
    pub stage: Stage,
    pub action: Action,
}

impl Plan {
    /// What the run does with the event.
    pub(crate) fn next_action(
        &self,
        alloc: Global,
        stage: Stage,
        event: Event,
    ) -> Result<Made, ReshardFault>
        ensures { Makes (turn self.now stage event) result }
    {
        match event {
            Event::Start => self.start(alloc, stage),
            Event::Reply(reply) => self.answered(alloc, stage, &reply),
            Event::NotReached => Err(ReshardFault::NotReached),
            Event::NoMemory => Err(ReshardFault::Memory),
        }
    }

    // The run begins, or goes on behind a line.
    fn start(&self, alloc: Global, stage: Stage) -> Result<Made, ReshardFault>
        ensures { Makes (started self.now stage) result }
    {
        match stage {
            Stage::Begins => self.find(alloc),
            Stage::Prints { nodes, slot } => self.begin_at(alloc, nodes, slot.get() + 1),
            Stage::Finds | Stage::Works(_) | Stage::Over => Err(ReshardFault::BadReply),
        }
    }

    // Asks who the masters are.
    fn find(&self, alloc: Global) -> Result<Made, ReshardFault>
        ensures { Makes (started self.now Stage.Begins) result }
    {
        let to = self.start.clone()?;
        let words = slots_words(alloc)?;
        Ok(Made {
            stage: Stage::Finds,
            action: Action::Ask { to, words },
        })
    }

    // The reply to what was asked.
    fn answered(&self, alloc: Global, stage: Stage, reply: &Reply) -> Result<Made, ReshardFault>
        ensures { Makes (answered self.now stage reply.now) result }
    {
        match stage {
            Stage::Finds => self.found(alloc, reply),
            Stage::Works(work) => self.replied(alloc, work, reply),
            Stage::Begins | Stage::Prints { .. } | Stage::Over => Err(ReshardFault::BadReply),
        }
    }

    // The masters are listed.
    fn found(&self, alloc: Global, reply: &Reply) -> Result<Made, ReshardFault>
        ensures { Makes (Reads (found self.now (nodes_in self.now.from self.now.to reply.now))) result }
    {
        match Nodes::read(alloc, reply, &self.from, &self.to) {
            Ok(nodes) => self.begin_at(alloc, nodes, self.slots.first.get()),
            Err(fault) => Err(fault),
        }
    }

    // Begins with the slot of that number, or ends behind the last one.
    fn begin_at(&self, alloc: Global, nodes: Nodes, slot: u16) -> Result<Made, ReshardFault>
        ensures { Makes (begins_at self.now nodes slot) result }
    {
        if slot > self.slots.last.get() {
            return Ok(Made {
                stage: Stage::Over,
                action: Action::End,
            });
        }
        let Some(slot) = Slot::new(slot) else {
            unreachable!();
        };
        self.ask_step(
            alloc,
            Work {
                nodes,
                slot,
                number: None,
                keys: 0,
                repeats: self.limit,
                step: Step::ReadsSource,
            },
        )
    }

    // A reply about the slot.
    fn replied(&self, alloc: Global, work: Work, reply: &Reply) -> Result<Made, ReshardFault>
        ensures { Makes (replied self.now work work.step reply.now) result }
    {
        match &work.step {
            Step::ReadsSource => self.source_read(alloc, work, reply),
            Step::ReadsDestination(source) => {
                let source = *source;
                self.destination_read(alloc, work, source, reply)
            }
            Step::Imports => self.then_take(alloc, work, Step::Migrates, reply),
            Step::Migrates => self.then_take(alloc, work, Step::ListsKeys, reply),
            Step::ListsKeys => self.keys_listed(alloc, work, reply),
            Step::MovesKeys(migration) => {
                let moved = migration.len();
                self.keys_moved(alloc, work, moved, Answer::of(reply))
            }
            Step::EndsAtDestination => self.ended_at_destination(alloc, work, Answer::of(reply)),
            Step::EndsAtSource => self.ended_at(alloc, work, 0, Answer::of(reply)),
            Step::EndsAtOther { next, .. } => {
                let next = *next;
                self.ended_at(alloc, work, next, Answer::of(reply))
            }
        }
    }

    // The source reported.
    fn source_read(&self, alloc: Global, work: Work, reply: &Reply) -> Result<Made, ReshardFault>
        ensures { Makes (source_read self.now work (report_in self.now.to reply.now)) result }
    {
        let Some(report) = Report::read(reply, &self.to) else {
            return Err(ReshardFault::BadReply);
        };
        let source = Source {
            number: report.leaves(),
            last: report.last,
        };
        self.take_step(alloc, work, Step::ReadsDestination(source))
    }

    // The destination reported.
    fn destination_read(
        &self,
        alloc: Global,
        work: Work,
        source: Source,
        reply: &Reply,
    ) -> Result<Made, ReshardFault>
        ensures { Makes (destination_read self.now work source (report_in self.now.from reply.now)) result }
    {
        let Some(report) = Report::read(reply, &self.from) else {
            return Err(ReshardFault::BadReply);
        };
        if report.owns() {
            let number = positive(report.last);
            return self.take_step(alloc, Work { number, ..work }, Step::EndsAtSource);
        }
        self.numbered(alloc, work, number_of(source, &report))
    }

    // The number of the move is known, if there is one.
    fn numbered(
        &self,
        alloc: Global,
        work: Work,
        number: Option<MoveNo>,
    ) -> Result<Made, ReshardFault>
        ensures { Makes (numbered self.now work number) result }
    {
        match number {
            Some(number) => {
                let number = Some(number);
                self.take_step(alloc, Work { number, ..work }, Step::Imports)
            }
            None => Err(ReshardFault::NoNextNumber),
        }
    }

    // The order is done, and the next step comes; or the run can't go on.
    fn then_take(
        &self,
        alloc: Global,
        work: Work,
        step: Step,
        reply: &Reply,
    ) -> Result<Made, ReshardFault>
        ensures { Makes (then_takes self.now work step (answer_of reply.now)) result }
    {
        match Answer::of(reply) {
            Answer::Done => self.take_step(alloc, work, step),
            _ => Err(ReshardFault::BadReply),
        }
    }

    // Keys that are left at the source are listed.
    fn keys_listed(&self, alloc: Global, work: Work, reply: &Reply) -> Result<Made, ReshardFault>
        ensures { Makes (Reads (keys_listed self.now work (keys_in reply.now))) result }
    {
        let Some(keys) = Keys::read(alloc, reply)? else {
            return Err(ReshardFault::BadReply);
        };
        self.move_keys(alloc, work, keys)
    }

    // Moves as many of these keys as one request can name, or ends the move where there is none.
    fn move_keys(&self, alloc: Global, work: Work, keys: Keys) -> Result<Made, ReshardFault>
        ensures { Makes (keys_listed self.now work (Some keys)) result }
    {
        if keys.is_empty() {
            return self.take_step(alloc, work, Step::EndsAtDestination);
        }
        let to = work.nodes.destination().clone()?;
        self.take_step(alloc, work, Step::MovesKeys(Migration::new(to, keys)))
    }

    // So many keys are moved, or are to be asked for again.
    fn keys_moved(
        &self,
        alloc: Global,
        work: Work,
        moved: usize,
        answer: Answer,
    ) -> Result<Made, ReshardFault>
        ensures { Makes (keys_moved self.now work moved answer) result }
    {
        match answer {
            Answer::Done => self.take_step(alloc, counted(work, moved), Step::ListsKeys),
            Answer::NoKey => self.take_step(alloc, work, Step::ListsKeys),
            Answer::TryAgain | Answer::NotAcknowledged => self.again(alloc, work),
            Answer::NotDrained | Answer::Other => Err(ReshardFault::BadReply),
        }
    }

    // The destination owns the slot, or is to be asked again.
    fn ended_at_destination(
        &self,
        alloc: Global,
        work: Work,
        answer: Answer,
    ) -> Result<Made, ReshardFault>
        ensures { Makes (ended_at_destination self.now work answer) result }
    {
        match answer {
            Answer::Done => self.take_step(alloc, work, Step::EndsAtSource),
            Answer::NotDrained => self.again(alloc, work),
            _ => Err(ReshardFault::BadReply),
        }
    }

    // Another node knows the new owner, or is to be asked again.
    fn ended_at(
        &self,
        alloc: Global,
        work: Work,
        next: usize,
        answer: Answer,
    ) -> Result<Made, ReshardFault>
        ensures { Makes (ended_at self.now work next answer) result }
    {
        match answer {
            Answer::Done => self.next_other(alloc, work, next),
            Answer::TryAgain => self.again(alloc, work),
            _ => Err(ReshardFault::BadReply),
        }
    }

    // Tells the other master at the place, or what was done where there is none.
    fn next_other(&self, alloc: Global, work: Work, place: usize) -> Result<Made, ReshardFault>
        ensures { Makes (next_other self.now work place (slice_get work.nodes.others place)) result }
    {
        let Some(at) = work.nodes.other(place) else {
            return Ok(line(work));
        };
        let at = at.clone()?;
        let next = place + 1;
        self.take_step(alloc, work, Step::EndsAtOther { at, next })
    }

    // Asks what the step asks.
    fn take_step(&self, alloc: Global, work: Work, step: Step) -> Result<Made, ReshardFault>
        ensures { Makes (takes self.now work step) result }
    {
        let repeats = self.limit;
        self.ask_step(
            alloc,
            Work {
                repeats,
                step,
                ..work
            },
        )
    }

    // Asks the same again, if it may.
    fn again(&self, alloc: Global, work: Work) -> Result<Made, ReshardFault>
        ensures { Makes (again self.now work) result }
    {
        if work.repeats == 0 {
            return Err(ReshardFault::TooOften);
        }
        let repeats = work.repeats - 1;
        self.ask_step(alloc, Work { repeats, ..work })
    }

    fn ask_step(&self, alloc: Global, work: Work) -> Result<Made, ReshardFault>
        ensures { Makes (asks self.now work) result }
    {
        let to = place_at(&work.nodes, &work.step).clone()?;
        let words = self.words_at(alloc, &work)?;
        Ok(Made {
            stage: Stage::Works(work),
            action: Action::Ask { to, words },
        })
    }

    // The words that the step asks.
    fn words_at(&self, alloc: Global, work: &Work) -> Result<Words, AllocError>
        ensures { IfOk result (λ words. words ≡ words_at self.now work.now work.now.step) }
    {
        let slot = work.slot;
        let number = work.number;
        match &work.step {
            Step::ReadsSource | Step::ReadsDestination(_) => state_words(alloc, slot),
            Step::Imports => set_words(alloc, SlotOrder::Importing, slot, &self.from, number),
            Step::Migrates => set_words(alloc, SlotOrder::Migrating, slot, &self.to, number),
            Step::ListsKeys => keys_words(alloc, slot),
            Step::MovesKeys(migration) => migrate_words(alloc, migration),
            Step::EndsAtDestination | Step::EndsAtSource | Step::EndsAtOther { .. } => {
                set_words(alloc, SlotOrder::Node, slot, &self.to, number)
            }
        }
    }
}

// The node that the step asks.
fn place_at<'a>(nodes: &'a Nodes, step: &'a Step) -> &'a Address
    ensures { result.now ≡ place_at nodes.now step.now }
{
    match step {
        Step::ReadsDestination(_) | Step::Imports | Step::EndsAtDestination => nodes.destination(),
        Step::EndsAtOther { at, .. } => at,
        Step::ReadsSource
        | Step::Migrates
        | Step::ListsKeys
        | Step::MovesKeys(_)
        | Step::EndsAtSource => nodes.source(),
    }
}

// The number of the move: that of the one under way, or the next one.
fn number_of(source: Source, report: &Report) -> Option<MoveNo>
    ensures { result ≡ number_of source report.now }
{
    let leaving = source.number;
    let under_way = leaving.or(report.comes());
    under_way.or(next_number(source.last.max(report.last)))
}

// So many keys more are moved.
fn counted(work: Work, moved: usize) -> Work
    ensures { result ≡ counted work moved }
{
    let keys = work.keys.saturating_add(moved as u64);
    Work { keys, ..work }
}

// The slot is done.
fn line(work: Work) -> Made
    ensures { result ≡ prints_line work }
{
    let Work {
        nodes,
        slot,
        number,
        keys,
        ..
    } = work;
    Made {
        stage: Stage::Prints { nodes, slot },
        action: Action::Line { slot, number, keys },
    }
}
