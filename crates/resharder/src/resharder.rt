//! A run that moves slots, over a way to the nodes.
ghost use Rattle.std.specs.Prelude.{◌≡◌, IfNone, IfSome, None};
ghost use Rattle.resharder.specs.Runs.{Answers, answer_after, ended_by, first_resharder};
ghost use Rattle.resharder.specs.Step.{MayCome};
ghost use Rattle.resharder.specs.declared.action.Event.TheVariants.{Start};

use crate::action::{Action, Event};
use crate::asking::ask_node;
use crate::fault::ReshardFault;
use crate::moved_slot::MovedSlot;
use crate::plan::Plan;
use crate::reshard_core::ReshardCore;
use smart_client::Network;
use std::alloc::Global;
use std::marker::Model;

/// A run that moves slots from one master to another, over a way to the nodes.
#[derive(Drop)]
pub struct Resharder<N: Network + Drop> {
    core: ReshardCore,
    network: N,
    // How the run ended, if it did.
    ended: Option<Result<(), ReshardFault>>,
}

impl<N: Network + Drop> Model for Resharder<N> {
    ghost use Rattle.std.specs.Prelude.{IfNone};
    ghost use Rattle.resharder.specs.Runs.{ResharderView};
    ghost use Rattle.resharder.specs.Step.{MayCome};
    ghost use Rattle.resharder.specs.declared.action.Event.TheVariants.{Start};

    ghost Value = { ResharderView };

    ghost view = { λ resharder.
        record { run = record { state = resharder.core; deeds = N.deeds resharder.network }; ended = resharder.ended } };

    // A run that isn't over can begin, or go on behind a line.
    ghost invariant = { λ resharder. IfNone resharder.ended (MayCome resharder.core.stage Start) };
}

impl<N: Network + Drop> Resharder<N> {
    /// A run that has not begun.
    pub fn new(alloc: Global, network: N, plan: Plan) -> Resharder<N>
        ensures { result ≡ first_resharder plan (N.deeds network) }
    {
        Resharder {
            core: ReshardCore::new(alloc, plan),
            network,
            ended: None,
        }
    }

    /// Moves the next slot, or gives None once all are at their new master.
    ///
    /// A fault ends the run. Once it is over, each further call answers as the last one did, and asks nobody.
    ///
    /// [`ReshardFault::TooOften`] also comes where 18446744073709551615 requests didn't move the slot: a loop has to end.
    pub fn move_next(&mut self) -> Result<Option<MovedSlot>, ReshardFault>
        ensures answers { IfNone self.old.ended (Answers self.old.run result self.new.run) }
        ensures ends { IfNone self.old.ended (self.new.ended ≡ ended_by result) }
        ensures over { IfSome self.old.ended (λ ended. (self.new ≡ self.old) × (result ≡ answer_after ended)) }
    {
        if let Some(ended) = self.ended {
            return answer_after(ended);
        }
        let answer = go_on(&mut self.core, &mut self.network);
        self.ended = ended_by(&answer);
        answer
    }
}

// The run begins, or goes on behind a line, until it has an answer.
fn go_on<N: Network>(
    core: &mut ReshardCore,
    network: &mut N,
) -> Result<Option<MovedSlot>, ReshardFault>
    requires { MayCome core.old.stage Start }
    ensures answers { Answers (record { state = core.old; deeds = N.deeds network.old }) result (record { state = core.new; deeds = N.deeds network.new }) }
    ensures waits { IfNone (ended_by result) (MayCome core.new.stage Start) }
{
    let mut action = core.on(Event::Start);
    // A loop has to end, so this one counts the requests.
    'requests: for _ in 0..u64::MAX {
        match action {
            Action::Ask { to, words } => {
                let event = ask_node(network, to, words);
                action = core.on(event);
            }
            Action::Line { slot, number, keys } => {
                return Ok(Some(MovedSlot { slot, number, keys }));
            }
            Action::Fault(fault) => return Err(fault),
            Action::End => return Ok(None),
        }
    }
    Err(ReshardFault::TooOften)
}

// What is answered once the run is over.
fn answer_after(ended: Result<(), ReshardFault>) -> Result<Option<MovedSlot>, ReshardFault>
    ensures { result ≡ answer_after ended }
{
    match ended {
        Ok(()) => Ok(None),
        Err(fault) => Err(fault),
    }
}

// How the run ends with the answer, if it does.
fn ended_by(answer: &Result<Option<MovedSlot>, ReshardFault>) -> Option<Result<(), ReshardFault>>
    ensures { result ≡ ended_by answer.now }
{
    match answer {
        Ok(Some(_)) => None,
        Ok(None) => Some(Ok(())),
        Err(fault) => Some(Err(*fault)),
    }
}
