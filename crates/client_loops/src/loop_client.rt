//! A client that a thread serves in turn with others.

ghost use Rattle.listener.specs.Turns.{IsParked};

use crate::lingering::{Lingering, is_told};
use listener::{Came, ConnFault, Farewell, Left, Next, Rest, SharedGate, Talk, read_once};
use mio::event::Event;
use resp2::Counting;
use std::alloc::Global;
use std::io::Read;
use std::mem;
use std::net::TcpStream;
use std::os::fd::{AsRawFd, RawFd};
use std::rt::Clock;
use std::sync::Arc;
use std::time::Duration;

// After this many of its requests the other clients have their turn.
const MOST_ANSWERED: u32 = 64;

/// A client on a socket that doesn't wait.
///
/// When it has its turn it is read, has requests answered, and is written to, each once at most. It is read only once all that it sent
/// before is answered and all replies are written, so a client that doesn't read costs one batch of them.
pub(crate) struct LoopClient<G: SharedGate> {
    stream: Arc<TcpStream, Global>,
    /// By which it is removed from the clients of the cluster.
    pub(crate) number: usize,
    asks: G::Asks,
    stage: Stage<G::Answer>,
    // What comes next in the conversation, once nothing is left to be written.
    next: Next,
    left: Left,
    // The system told of something to read, and no read has taken all of it since.
    may_read: bool,
    // The client sends nothing more. The system tells of that once, so a short read isn't the last one.
    has_hung_up: bool,
}

// It does what the derive would. Written out it is one call wherever a client is let go.
impl<G: SharedGate> Drop for LoopClient<G> {
    fn drop(self) {
        let LoopClient {
            stream: _,
            number: _,
            asks: _,
            stage: _,
            next: _,
            left: _,
            may_read: _,
            has_hung_up: _,
        } = self;
    }
}

/// How far a conversation has come.
#[derive(Drop)]
enum Stage<S> {
    /// The node has opened no connection for it yet.
    New,
    Talking(Talk<S>),
    /// It has ended so, and the node hasn't closed the connection yet.
    Ended(Talk<S>, Result<Rest, ConnFault>),
    /// The node has closed the connection, and the client is still to be sent this, perhaps with a line that tells it why.
    Parting {
        farewell: Farewell<S>,
        is_told: bool,
    },
    /// The client was sent that line. What it goes on to send is read and forgotten, so that it comes to read the line.
    Leaving(Lingering),
    /// Nothing more is done for the client.
    Over,
}

impl<G: SharedGate> LoopClient<G> {
    /// A client that has just come, and begins to ask with this.
    pub(crate) fn new(
        stream: Arc<TcpStream, Global>,
        number: usize,
        asks: G::Asks,
    ) -> LoopClient<G> {
        LoopClient {
            stream,
            number,
            asks,
            stage: Stage::New,
            next: Next::Read,
            left: Left::Nothing,
            may_read: false,
            has_hung_up: false,
        }
    }

    pub(crate) fn raw_fd(&self) -> RawFd {
        self.stream.as_raw_fd()
    }

    /// Notes that the client may be read, or takes more.
    pub(crate) fn note_event(&mut self, event: &Event) {
        self.may_read = true;
        self.has_hung_up |= event.is_read_closed();
        if self.left == Left::Blocked {
            self.left = Left::More;
        }
    }

    /// Reads once what the client has sent, if that is what comes next.
    pub(crate) fn read(&mut self, input: &mut [u8]) {
        if self.may_read && self.is_to_be_read() {
            if let Err(ended) = self.read_once(input) {
                self.end(ended);
            }
        }
    }

    fn is_to_be_read(&self) -> bool {
        match &self.stage {
            Stage::Talking(_) => self.left == Left::Nothing && self.next == Next::Read,
            Stage::Leaving(_) => true,
            Stage::New | Stage::Ended(_, _) | Stage::Parting { .. } | Stage::Over => false,
        }
    }

    // Reads once. An error is how the conversation ends by that.
    fn read_once(&mut self, room: &mut [u8]) -> Result<(), Result<Rest, ConnFault>> {
        let mut reader = Counting::new(&*self.stream);
        let came = match &mut self.stage {
            Stage::Talking(talk) => talk.read_once(&mut reader, room).map_err(Err)?,
            Stage::Leaving(lingering) => read_on(lingering, &mut reader, room)?,
            Stage::New | Stage::Ended(_, _) | Stage::Parting { .. } | Stage::Over => return Ok(()),
        };
        match came {
            Came::Bytes(count) => {
                self.may_read = self.has_hung_up || count == room.len();
                self.next = Next::Answer;
                Ok(())
            }
            Came::End => Err(Ok(Rest::Unfinished)),
            Came::Nothing => {
                self.may_read = false;
                Ok(())
            }
            Came::Interrupted => Ok(()),
        }
    }

    // The conversation has ended so, or the client has left behind that.
    fn end(&mut self, ended: Result<Rest, ConnFault>) {
        self.stage = match mem::replace(&mut self.stage, Stage::Over) {
            Stage::Talking(talk) => Stage::Ended(talk, ended),
            Stage::Leaving(_) => Stage::Over,
            stage => stage,
        };
    }

    /// Has the node do what comes next: open the connection, answer some requests, or close the connection.
    pub(crate) fn ask(&mut self, alloc: Global, gate: &mut G) {
        gate.swap_asks(&mut self.asks);
        self.answer(gate);
        self.change_stage(alloc, gate);
        gate.swap_asks(&mut self.asks);
    }

    // Has the node answer some requests, if that is what comes next.
    fn answer(&mut self, gate: &mut G) {
        if self.left != Left::Nothing || !matches!(self.next, Next::Answer | Next::Write) {
            return;
        }
        let Stage::Talking(talk) = &mut self.stage else {
            return;
        };
        match talk.answer(gate, MOST_ANSWERED) {
            Ok(Next::BadByte) => self.end(Ok(Rest::BadByte)),
            Ok(next) => self.next = next,
            Err(fault) => self.end(Err(fault)),
        }
    }

    // Opens the connection of a client that has just come, or closes one whose conversation has ended.
    fn change_stage(&mut self, alloc: Global, gate: &mut G) {
        if !matches!(&self.stage, Stage::New | Stage::Ended(_, _)) {
            return;
        }
        self.stage = match mem::replace(&mut self.stage, Stage::Over) {
            Stage::New => match Talk::begin(alloc, gate) {
                Ok(talk) => Stage::Talking(talk),
                Err(fault) => Stage::Parting {
                    farewell: Farewell::to_refused(alloc, fault),
                    is_told: is_told(Err(fault)),
                },
            },
            Stage::Ended(talk, ended) => part(talk.end(gate, ended), ended),
            stage => stage,
        };
    }

    /// Whether the client waits for a reply that comes later.
    pub(crate) fn is_parked(&self) -> bool {
        match &self.stage {
            Stage::Talking(talk) => talk.is_parked(),
            Stage::New
            | Stage::Ended(_, _)
            | Stage::Parting { .. }
            | Stage::Leaving(_)
            | Stage::Over => false,
        }
    }

    /// Takes the reply for which the client waits, if the node has it by now. Once the node is closed, none will come any more, and
    /// that ends the conversation.
    pub(crate) fn listen(&mut self, gate: &mut G, is_closed: bool) {
        let Stage::Talking(talk) = &mut self.stage else {
            return;
        };
        if !talk.is_parked() {
            return;
        }
        gate.swap_asks(&mut self.asks);
        let heard = hear(talk, gate, is_closed);
        gate.swap_asks(&mut self.asks);
        match heard {
            Ok(true) => self.next = Next::Answer,
            Ok(false) => {}
            Err(fault) => self.end(Err(fault)),
        }
    }

    /// Writes once to the client.
    pub(crate) fn write<R: Clock>(&mut self, rt: &R) {
        if self.left == Left::Blocked {
            return;
        }
        match self.write_some() {
            Some(Ok(left)) => self.note_left(rt, left),
            Some(Err(fault)) => self.give_up(fault),
            None => {}
        }
    }

    // Writes once, if something may wait to be written.
    fn write_some(&mut self) -> Option<Result<Left, ConnFault>> {
        let mut writer = Counting::new(&*self.stream);
        match &mut self.stage {
            Stage::Talking(talk) => Some(talk.finish(&mut writer)),
            Stage::Parting { farewell, .. } => Some(farewell.finish(&mut writer)),
            Stage::New | Stage::Ended(_, _) | Stage::Leaving(_) | Stage::Over => None,
        }
    }

    fn note_left<R: Clock>(&mut self, rt: &R, left: Left) {
        self.left = left;
        if left == Left::Nothing
            && let Stage::Parting { is_told, .. } = &self.stage
        {
            self.stage = match *is_told {
                true => self.behind_line(rt),
                false => Stage::Over,
            };
        }
    }

    // What comes behind the last line: the client sees that nothing more comes, and is read for a moment.
    fn behind_line<R: Clock>(&self, rt: &R) -> Stage<G::Answer> {
        match Lingering::begin(rt, &*self.stream) {
            Some(lingering) => Stage::Leaving(lingering),
            None => Stage::Over,
        }
    }

    // The client can't be written to.
    fn give_up(&mut self, fault: ConnFault) {
        if let Stage::Parting { .. } = self.stage {
            self.stage = Stage::Over;
        }
        self.left = Left::Nothing;
        self.end(Err(fault));
    }

    /// Whether there is more to be done for the client at once.
    pub(crate) fn goes_on(&self) -> bool {
        if self.is_ended() {
            return true;
        }
        if self.is_leaving() {
            return self.may_read;
        }
        match self.left {
            Left::More | Left::NoMemory => true,
            Left::Blocked => false,
            Left::Nothing => match self.next {
                Next::Answer | Next::Write => true,
                Next::Read => self.may_read,
                Next::Hear | Next::BadByte => false,
            },
        }
    }

    // Whether the node is still to close the connection.
    fn is_ended(&self) -> bool {
        matches!(&self.stage, Stage::Ended(_, _))
    }

    /// Whether all that is to be done for the client wants memory that was refused.
    pub(crate) fn is_starved(&self) -> bool {
        self.left == Left::NoMemory && !self.is_ended()
    }

    /// Whether the client was told why its conversation ended, and is still read.
    pub(crate) fn is_leaving(&self) -> bool {
        matches!(&self.stage, Stage::Leaving(_))
    }

    /// How much time is left in which the client is still read, if there is any.
    pub(crate) fn time_left<R: Clock>(&self, rt: &R) -> Option<Duration> {
        match &self.stage {
            Stage::Leaving(lingering) => lingering.time_left(rt),
            Stage::New
            | Stage::Talking(_)
            | Stage::Ended(_, _)
            | Stage::Parting { .. }
            | Stage::Over => None,
        }
    }

    /// Reads the client no more, which was told why its conversation ended.
    pub(crate) fn stop_lingering(&mut self) {
        if self.is_leaving() {
            self.stage = Stage::Over;
        }
    }

    /// Whether nothing more is done for the client.
    pub(crate) fn is_over(&self) -> bool {
        matches!(&self.stage, Stage::Over)
    }
}

// How a conversation goes on that ended so. Behind a write that failed nothing more is written.
fn part<S: Drop>(farewell: Farewell<S>, ended: Result<Rest, ConnFault>) -> Stage<S> {
    match ended {
        Err(ConnFault::Writer) => Stage::Over,
        _ => Stage::Parting {
            farewell,
            is_told: is_told(ended),
        },
    }
}

// Takes the reply that comes later, if the node has it by now, and says whether it has. A fault is that none will come any more.
fn hear<G: SharedGate>(
    talk: &mut Talk<G::Answer>,
    gate: &mut G,
    is_closed: bool,
) -> Result<bool, ConnFault>
    requires { IsParked talk.old }
{
    if is_closed {
        talk.wait(gate)?;
        return Ok(true);
    }
    Ok(talk.listen(gate))
}

// Reads and forgets what came. An error is that the client has left, or was read for long enough.
fn read_on<R: Read>(
    lingering: &mut Lingering,
    reader: &mut Counting<R>,
    room: &mut [u8],
) -> Result<Came, Result<Rest, ConnFault>> {
    let came = read_once(reader, room).map_err(Err)?;
    match came {
        Came::Bytes(count) if !lingering.note_read(count) => Err(Ok(Rest::Unfinished)),
        _ => Ok(came),
    }
}
