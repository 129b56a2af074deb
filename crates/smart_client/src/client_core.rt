//! What a client does with each event.
ghost use Rattle.std.specs.Prelude.{◌≡◌, ◌<◌, Ok, Err, Some, None, IfOk, length, replicate, if◌then◌else◌, false};
ghost use Rattle.smart_client.specs.Calls.{IsWaiting, Nears};
ghost use Rattle.smart_client.specs.State.{first_client};
ghost use Rattle.smart_client.specs.Step.{MayCome, Steps, closes, loses, with_connected};

use crate::action::{Action, Event};
use crate::call::Call;
use crate::ended::{Ended, closes, loses};
use crate::fault::ClientFault;
use crate::peers::Peers;
use key_slot::Slot;
use redirection::Address;
use resp2::Reply;
use std::alloc::{AllocError, Global};
use std::marker::Model;

/// So many redirections of a call are followed.
pub const MOST_REDIRECTIONS: usize = 16;

/// So many addresses are known to a client.
pub const MOST_ADDRESSES: usize = 64;

/// A client's decisions, one call at a time: it is told what happened, and says what is to be done.
///
/// A call begins with [`Event::Call`]. What each [`Action`] brings is told next, until [`Action::Done`] ends the call. The core
/// sees no connection: who runs it keeps them, one for each address.
#[derive(Debug, Drop)]
pub struct ClientCore {
    pub(crate) alloc: Global,
    pub(crate) peers: Peers,
    // For each slot the place of its owner among these, where it was told.
    pub(crate) owners: Vec<Option<u8>>,
    pub(crate) limit: u64,
    pub(crate) call: Option<Call>,
}

impl Model for ClientCore {
    ghost use Rattle.smart_client.specs.State.{ClientState};
    ghost use Rattle.smart_client.specs.Turns.{IsClient};

    ghost Value = { ClientState };

    ghost view = { λ core. record { peers = core.peers; owners = core.owners.items; limit = core.limit; call = core.call } };

    ghost invariant = { λ core. IsClient (record { peers = core.peers; owners = core.owners.items; limit = core.limit; call = core.call }) };
}

impl ClientCore {
    /// A client that begins at this address. A call begins again for TRYAGAIN so often at most.
    pub fn new(alloc: Global, start: Address, limit: u64) -> Result<ClientCore, AllocError>
        ensures { IfOk result (λ core. core ≡ first_client start limit) }
    {
        Ok(ClientCore {
            alloc,
            peers: Peers::new(alloc, start)?,
            owners: no_owners(alloc)?,
            limit,
            call: None,
        })
    }

    /// Takes an event, and says what is to be done next.
    ///
    /// Where memory is refused the call ends with [`ClientFault::Memory`].
    pub fn on(&mut self, event: Event) -> Action
        requires { MayCome self.old.call event }
        ensures steps { Steps self.old event result self.new }
        ensures waits { IsWaiting result self.new.call }
        ensures nears { Nears self.old.limit self.old.call self.new.call }
        ensures limit { self.new.limit ≡ self.old.limit }
    {
        let Some(call) = self.call.take() else {
            return match self.begin(event) {
                Ok(action) => action,
                Err(ended) => done(ended.answer),
            };
        };
        let place = call.to;
        match self.go_on(call, event) {
            Ok(action) => action,
            Err(ended) => self.end(place, ended.answer),
        }
    }

    // The call to the node at the place is over.
    fn end(&mut self, place: usize, answer: Result<Reply, ClientFault>) -> Action
        requires { place < length self.old.peers }
        ensures peers { self.new ≡ record self.old { peers = if loses answer then with_connected self.old.peers place false else self.old.peers } }
        ensures done { result ≡ Action.Done answer (closes answer) }
    {
        if loses(&answer) {
            self.peers.set_connected(place, false);
        }
        done(answer)
    }
}

// No slot's owner is known.
fn no_owners(alloc: Global) -> Result<Vec<Option<u8>>, AllocError>
    ensures owners { IfOk result (λ owners. owners.items ≡ replicate 16384 None) }
{
    Ok(Vec::from_elem(alloc, None, Slot::COUNT)?)
}

// The call is over.
fn done(answer: Result<Reply, ClientFault>) -> Action
    ensures { result ≡ Action.Done answer (closes answer) }
{
    let close = closes(&answer);
    Action::Done { answer, close }
}
