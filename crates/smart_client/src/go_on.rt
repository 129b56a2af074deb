//! How a call goes on with each event.
ghost use Rattle.std.specs.Prelude.{◌≡◌, ◌<◌, None, Some, Option, IfSome};
ghost use Rattle.smart_client.specs.Step.{MayComeTo, allowed, answered, asked_at, broken, connected, failed, follows, introduced, is_ok, redirected, replied, sends, turn, unwelcome, uses, without_memory};
ghost use Rattle.smart_client.specs.Turns.{IsCall, Makes};

use crate::action::{Action, Event};
use crate::call::{Call, Stage};
use crate::client_core::{ClientCore, MOST_ADDRESSES, MOST_REDIRECTIONS};
use crate::ended::{Ended, is_last_line};
use crate::error_kind::ErrorKind;
use crate::fault::ClientFault;
use crate::requests::{asking_words, numbered_words};
use key_slot::{MoveNo, Slot};
use redirection::{Address, Redirection, read_redirection};
use resp2::{Line, Reply};

impl ClientCore {
    /// What the call makes of the event.
    pub(crate) fn go_on(&mut self, call: Call, event: Event) -> Result<Action, Ended>
        requires none { self.old.call ≡ None }
        requires call { IsCall self.old call }
        requires event { MayComeTo call.stage event }
        ensures { Makes (turn self.old call event) self.old result self.new }
    {
        match event {
            Event::Connected => self.connected(call),
            Event::NotConnected => Err(ClientFault::NotConnected.into()),
            Event::Reply(reply) => self.answered(call, reply),
            Event::BadReply => Err(ClientFault::BadReply.into()),
            Event::Broken { handed } => Err(broken(call.stage, handed).into()),
            Event::NoMemory { handed } => Err(without_memory(call.stage, handed).into()),
            Event::Call(_) => unreachable!(),
        }
    }

    // The connection can be used.
    fn connected(&mut self, call: Call) -> Result<Action, Ended>
        requires none { self.old.call ≡ None }
        requires call { IsCall self.old call }
        ensures { Makes (connected self.old call) self.old result self.new }
    {
        if self.peers.get(call.to).is_connected {
            return self.use_connection(call);
        }
        let words = numbered_words(self.alloc)?;
        Ok(self.wait(call, Stage::Introducing, Action::Send(words)))
    }

    // Sends the command, or ASKING in front of it.
    fn use_connection(&mut self, call: Call) -> Result<Action, Ended>
        requires none { self.old.call ≡ None }
        requires call { IsCall self.old call }
        ensures { Makes (uses self.old call) self.old result self.new }
    {
        let Some(number) = call.asking else {
            return self.send(call);
        };
        let words = asking_words(self.alloc, number)?;
        Ok(self.wait(call, Stage::Asking, Action::Send(words)))
    }

    // Sends the command.
    fn send(&mut self, call: Call) -> Result<Action, Ended>
        requires none { self.old.call ≡ None }
        requires call { IsCall self.old call }
        ensures { Makes (sends self.old call) self.old result self.new }
    {
        let words = call.words.clone()?;
        Ok(self.wait(call, Stage::Sent, Action::Send(words)))
    }

    // The reply to what was sent last.
    fn answered(&mut self, call: Call, reply: Reply) -> Result<Action, Ended>
        requires none { self.old.call ≡ None }
        requires call { IsCall self.old call }
        ensures { Makes (answered call.stage self.old call reply) self.old result self.new }
    {
        match call.stage {
            Stage::Connecting => Err(ClientFault::BadReply.into()),
            Stage::Introducing => self.introduced(call, reply),
            Stage::Asking => self.allowed(call, reply),
            Stage::Sent => self.replied(call, reply),
        }
    }

    // The reply to CLUSTER NUMBERED.
    fn introduced(&mut self, call: Call, reply: Reply) -> Result<Action, Ended>
        requires none { self.old.call ≡ None }
        requires call { IsCall self.old call }
        ensures { Makes (introduced self.old call reply) self.old result self.new }
    {
        if !is_ok(&reply) {
            return Err(unwelcome(reply));
        }
        let place = call.to;
        let action = self.use_connection(call)?;
        self.peers.set_connected(place, true);
        Ok(action)
    }

    // The reply to ASKING.
    fn allowed(&mut self, call: Call, reply: Reply) -> Result<Action, Ended>
        requires none { self.old.call ≡ None }
        requires call { IsCall self.old call }
        ensures { Makes (allowed self.old call reply) self.old result self.new }
    {
        if !is_ok(&reply) {
            return Err(unwelcome(reply));
        }
        self.send(call)
    }

    // The reply to the command.
    fn replied(&mut self, call: Call, reply: Reply) -> Result<Action, Ended>
        requires none { self.old.call ≡ None }
        requires call { IsCall self.old call }
        ensures { Makes (replied self.old call reply) self.old result self.new }
    {
        let Reply::Error(text) = reply else {
            return Err(reply.into());
        };
        match ErrorKind::of(text.as_slice()) {
            ErrorKind::Redirection => self.redirected(call, text),
            ErrorKind::TryAgain => self.begin_again(call),
            ErrorKind::LastLine | ErrorKind::Other => Err(Reply::Error(text).into()),
        }
    }

    // MOVED or ASK.
    fn redirected(&mut self, call: Call, text: Line) -> Result<Action, Ended>
        requires none { self.old.call ≡ None }
        requires call { IsCall self.old call }
        ensures { Makes (failed ErrorKind.Redirection self.old call text) self.old result self.new }
    {
        if call.redirections == MOST_REDIRECTIONS {
            return Err(ClientFault::TooManyRedirects.into());
        }
        let Some(redirection) = read_redirection(self.alloc, text.as_slice())? else {
            return Err(ClientFault::BadReply.into());
        };
        self.redirected_to(call, redirection)
    }

    // The node at the address owns the slot, or is to be asked this time.
    fn redirected_to(&mut self, call: Call, redirection: Redirection) -> Result<Action, Ended>
        requires none { self.old.call ≡ None }
        requires call { IsCall self.old call }
        requires more { call.redirections < MOST_REDIRECTIONS }
        ensures { Makes (redirected self.old call (Some redirection)) self.old result self.new }
    {
        match redirection {
            Redirection::Moved { slot, to } => self.moved(call, slot, to),
            Redirection::Ask { to, number, .. } => self.asked_at(call, to, number),
        }
    }

    // The command is to be asked at the address. Without the number of the move it can't be.
    fn asked_at(&mut self, call: Call, to: Address, number: Option<MoveNo>) -> Result<Action, Ended>
        requires none { self.old.call ≡ None }
        requires call { IsCall self.old call }
        requires more { call.redirections < MOST_REDIRECTIONS }
        ensures { Makes (asked_at self.old call to number) self.old result self.new }
    {
        match number {
            Some(number) => self.follow(call, to, Some(number)),
            None => Err(ClientFault::BadReply.into()),
        }
    }

    // The node at the address owns the slot.
    fn moved(&mut self, call: Call, slot: Slot, to: Address) -> Result<Action, Ended>
        requires none { self.old.call ≡ None }
        requires call { IsCall self.old call }
        requires more { call.redirections < MOST_REDIRECTIONS }
        ensures { Makes (redirected self.old call (Some (Redirection.Moved slot to))) self.old result self.new }
    {
        let place = self.peers.place_of(&to);
        let action = self.follow(call, to, None)?;
        self.owners[slot.index()] = Some(place as u8);
        Ok(action)
    }

    // Goes to the address, with the number of the move where ASK named it.
    fn follow(
        &mut self,
        call: Call,
        address: Address,
        number: Option<MoveNo>,
    ) -> Result<Action, Ended>
        requires none { self.old.call ≡ None }
        requires call { IsCall self.old call }
        requires more { call.redirections < MOST_REDIRECTIONS }
        ensures { Makes (follows self.old call address number) self.old result self.new }
    {
        let to = self.peers.place_of(&address);
        if to == MOST_ADDRESSES {
            return Err(ClientFault::BadReply.into());
        }
        let target = address.clone()?;
        self.peers.learn(address);
        let call = Call {
            to,
            asking: number,
            redirections: call.redirections + 1,
            ..call
        };
        Ok(self.wait(call, Stage::Connecting, Action::Connect(target)))
    }
}

// Whether the reply is `+OK`.
fn is_ok(reply: &Reply) -> bool
    ensures { result ≡ is_ok reply.now }
{
    match reply {
        Reply::Simple(text) => text.as_slice() == b"OK".as_slice(),
        _ => false,
    }
}

// The end of a call whose connection answered CLUSTER NUMBERED or ASKING so.
fn unwelcome(reply: Reply) -> Ended
    ensures { result.answer ≡ unwelcome reply }
{
    if is_last_line(&reply) {
        return reply.into();
    }
    ClientFault::BadReply.into()
}

// The connection failed or ended.
fn broken(stage: Stage, handed: bool) -> ClientFault
    ensures { result ≡ broken stage handed }
{
    match stage {
        Stage::Sent if handed => ClientFault::Lost,
        _ => ClientFault::NotConnected,
    }
}

// Memory was refused: the command was handed over before, or it was not.
fn without_memory(stage: Stage, handed: bool) -> ClientFault
    ensures { result ≡ without_memory stage handed }
{
    match stage {
        Stage::Sent if handed => ClientFault::Lost,
        _ => ClientFault::Memory,
    }
}
