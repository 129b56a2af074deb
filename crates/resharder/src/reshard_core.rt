//! A run that moves slots from one master to another.
ghost use Rattle.std.specs.Prelude.{◌≡◌};
ghost use Rattle.resharder.specs.State.{first_state};
ghost use Rattle.resharder.specs.Step.{IsWaiting, MayCome, Steps};

use crate::action::{Action, Event};
use crate::plan::Plan;
use crate::stage::Stage;
use std::alloc::Global;
use std::marker::Model;
use std::mem;

/// The decisions of a run that moves slots from one master to another: it is told what happened, and says what is to be done.
///
/// It begins with [`Event::Start`]. What each [`Action::Ask`] brings is told next, and behind each [`Action::Line`] that the line
/// was printed, by [`Event::Start`] again, until [`Action::End`] or [`Action::Fault`] ends the run. It sees no connection: who
/// runs it keeps them.
///
/// A run that was stopped at any moment can begin anew, with the same plan: it reads first how far the move of each slot is, and
/// every request can be asked twice.
pub struct ReshardCore {
    alloc: Global,
    plan: Plan,
    stage: Stage,
}

impl Model for ReshardCore {
    ghost use Rattle.resharder.specs.State.{RunState};

    ghost Value = { RunState };

    ghost view = { λ core. record { plan = core.plan; stage = core.stage } };
}

// It does what the derive would. Written out it is one call wherever a run is let go, and not a `match` over its stage, which the
// proofs of those functions would have to look at.
impl Drop for ReshardCore {
    fn drop(self) {
        let ReshardCore {
            alloc: _,
            plan: _plan,
            stage: _stage,
        } = self;
    }
}

impl ReshardCore {
    /// A run that has not begun.
    pub fn new(alloc: Global, plan: Plan) -> ReshardCore
        ensures { result ≡ first_state plan }
    {
        ReshardCore {
            alloc,
            plan,
            stage: Stage::Begins,
        }
    }

    /// Takes an event, and says what is to be done next.
    pub fn on(&mut self, event: Event) -> Action
        requires { MayCome self.old.stage event }
        ensures steps { Steps self.old event result self.new }
        ensures waits { IsWaiting result self.new.stage }
    {
        let stage = mem::replace(&mut self.stage, Stage::Over);
        match self.plan.next_action(self.alloc, stage, event) {
            Ok(made) => {
                self.wait_for(made.stage);
                made.action
            }
            Err(fault) => Action::Fault(fault),
        }
    }

    fn wait_for(&mut self, stage: Stage)
        ensures { self.new ≡ record self.old { stage = stage } }
    {
        self.stage = stage;
    }
}
