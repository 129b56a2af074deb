//! How a call begins, and begins again.
ghost use Rattle.std.specs.Prelude.{◌≡◌, ◌<◌, ◌≤◌, None, IfSome, length};
ghost use Rattle.smart_client.specs.Step.{MayCome, again, begun, connects, next, waits};
ghost use Rattle.smart_client.specs.Turns.{IsCall, Makes};
ghost use Rattle.smart_client.specs.Words.{place_for};

use crate::action::{Action, Event};
use crate::call::{Call, Stage};
use crate::client_core::ClientCore;
use crate::ended::Ended;
use crate::fault::ClientFault;
use crate::requests::{first_slot, is_refused};
use resp2::Words;

impl ClientCore {
    /// Begins the call that the event tells.
    pub(crate) fn begin(&mut self, event: Event) -> Result<Action, Ended>
        requires none { self.old.call ≡ None }
        requires call { MayCome None event }
        ensures { Makes (next None self.old event) self.old result self.new }
    {
        let Event::Call(words) = event else {
            unreachable!();
        };
        if is_refused(&words) {
            return Err(ClientFault::NotData.into());
        }
        let to = self.place_for(&words);
        self.connect(Call {
            words,
            to,
            asking: None,
            redirections: 0,
            repeats: 0,
            stage: Stage::Connecting,
        })
    }

    /// Begins the call again, if it may.
    pub(crate) fn begin_again(&mut self, call: Call) -> Result<Action, Ended>
        requires none { self.old.call ≡ None }
        requires call { IsCall self.old call }
        ensures { Makes (again self.old call) self.old result self.new }
    {
        if call.repeats == self.limit {
            return Err(ClientFault::StillTryAgain.into());
        }
        let to = self.place_for(&call.words);
        self.connect(Call {
            to,
            asking: None,
            repeats: call.repeats + 1,
            ..call
        })
    }

    /// Has the call wait for the connection to its node.
    pub(crate) fn connect(&mut self, call: Call) -> Result<Action, Ended>
        requires none { self.old.call ≡ None }
        requires call { IsCall self.old call }
        ensures { Makes (connects self.old call) self.old result self.new }
    {
        let address = self.peers.get(call.to).address.clone()?;
        Ok(self.wait(call, Stage::Connecting, Action::Connect(address)))
    }

    /// Has the call wait at this stage.
    pub(crate) fn wait(&mut self, call: Call, stage: Stage, action: Action) -> Action
        requires none { self.old.call ≡ None }
        requires call { IsCall self.old call }
        ensures same { result ≡ action }
        ensures waits { self.new ≡ record self.old { call = Some (record call { stage = stage }) } }
    {
        self.call = Some(Call { stage, ..call });
        action
    }

    // The place of the node to which the words go.
    fn place_for(&self, words: &Words) -> usize
        ensures place { result ≡ place_for self.now words.now }
        ensures known { result < length self.now.peers }
    {
        let owners = &self.owners;
        let Some(slot) = first_slot(words) else {
            return 0;
        };
        match owners[slot.index()] {
            Some(place) => usize::from(place),
            None => 0,
        }
    }
}
