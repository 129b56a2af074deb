//! Replies on their way to a client: those of one turn go out together.
ghost use Rattle.std.specs.Prelude.{◌≡◌, ◌≢◌, ◌++◌, [], false, OnOk, IfOk, IfErr, MatchBool};
ghost use Rattle.resp_values.specs.Reply.{reply_spelling};
ghost use Rattle.listener.specs.Calls.{GrowsIf, PutsSome, SendsAll, Writes};
ghost use Rattle.listener.specs.Conversation.{error_bytes};
ghost use Rattle.listener.specs.Streams.{change_of};
ghost use Rattle.listener.specs.Turns.{HasRoom, IsLeftBy, held_bytes, reply_of, waiting_of};

use crate::batch::{Wrote, fits, fits_in, flush, line_fits, puts_held, send_held, write_once};
use crate::fault::ConnFault;
use command_table::ErrorLine;
use node_gate::Answered;
use resp2::{Counting, Reply};
use std::alloc::Global;
use std::io;
use std::io::Write;

// Where so much waits, no further request is answered before it is written. So a client that asks for much and reads slowly
// costs this and one reply at most, and not the replies to all that it sent.
const MOST_WAITING: usize = 65_536;

/// What a client is still to be sent: a batch of replies, and perhaps one behind it.
#[derive(Drop)]
pub(crate) struct Outgoing<S> {
    pub(crate) batch: Vec<u8>,
    // How many bytes of the batch were sent.
    pub(crate) sent: usize,
    pub(crate) held: Held<S>,
}

/// What stands behind the batch.
pub(crate) enum Held<S> {
    Nothing,
    /// A reply that comes later.
    Parked,
    /// The reply that this step gave. It is long, or there was no memory for it in the batch.
    Step(S),
    /// A reply that came later, and found no place in the batch.
    Reply(Reply),
}

// It does what the derive would. Written out it is one call wherever something held is let go.
impl<S: Drop> Drop for Held<S> {
    fn drop(self) {
        match self {
            Held::Nothing => {}
            Held::Parked => {}
            Held::Step(step) => drop(step),
            Held::Reply(reply) => drop(reply),
        }
    }
}

/// What a write left.
#[derive(Clone, Copy, PartialEq, Eq, Debug)]
pub enum Left {
    /// All was sent.
    Nothing,
    /// There is more to send at once.
    More,
    /// There is more, and the writer takes it later.
    Blocked,
    /// There is more, and no memory for it now.
    NoMemory,
}

impl<S: Answered + Drop> Outgoing<S> {
    pub(crate) fn new(alloc: Global) -> Outgoing<S>
        ensures room { HasRoom result }
        ensures empty { waiting_of S.gave result ≡ [] }
    {
        Outgoing {
            batch: Vec::new(alloc),
            sent: 0,
            held: Held::Nothing,
        }
    }

    /// Whether there is room for a further reply. There is none where a part of the batch was sent: the client takes no more.
    pub(crate) fn has_room(&self) -> bool
        ensures { MatchBool result (HasRoom self.now) (HasRoom self.now → ⊥) }
    {
        let Held::Nothing = self.held else {
            return false;
        };
        self.sent == 0 && self.batch.len() < MOST_WAITING
    }

    /// Puts the reply that the step gave behind those that wait.
    #[inline(always)]
    pub(crate) fn put(&mut self, step: S)
        requires { HasRoom self.old }
        ensures put { waiting_of S.gave self.new
            ≡ waiting_of S.gave self.old ++ reply_of S.gave step }
        ensures here { self.new.held ≢ Held.Parked }
    {
        if !fits(step.response(), &mut self.batch) {
            self.held = Held::Step(step);
        }
    }

    /// Puts the reply that comes later behind those that wait.
    pub(crate) fn hear(&mut self, reply: Reply)
        requires { self.old.held ≡ Held.Parked }
        ensures put { waiting_of S.gave self.new
            ≡ waiting_of S.gave self.old ++ reply_spelling reply }
        ensures here { self.new.held ≢ Held.Parked }
    {
        if self.sent == 0 && fits_in(&reply, &mut self.batch) {
            self.held = Held::Nothing;
            return;
        }
        self.held = Held::Reply(reply);
    }

    /// Puts the line behind those that wait, where memory allows and nothing stands between, and says whether it did.
    pub(crate) fn puts_line(&mut self, line: ErrorLine) -> bool
        ensures { GrowsIf result (change_of (waiting_of S.gave) self.old self.new)
            (error_bytes line) }
    {
        self.sent == 0 && !self.has_held() && line_fits(line, &mut self.batch)
    }

    // Whether a reply is held behind the batch.
    fn has_held(&self) -> bool
        ensures { result ≡ false → held_bytes S.gave self.now.held ≡ [] }
    {
        match self.held {
            Held::Nothing => false,
            Held::Parked => false,
            Held::Step(_) => true,
            Held::Reply(_) => true,
        }
    }

    /// Writes all that waits.
    pub(crate) fn write_out<W: Write>(&mut self, writer: &mut Counting<W>) -> io::Result<()>
        ensures sends { SendsAll result W.Write writer.old writer.new (waiting_of S.gave self.old) }
        ensures empty { OnOk result (waiting_of S.gave self.new ≡ []) }
        ensures room { OnOk result (self.old.held ≢ Held.Parked → HasRoom self.new) }
    {
        flush(&mut self.batch, &mut self.sent, writer)?;
        send_held(&self.held, &mut self.batch, writer)?;
        self.let_go();
        Ok(())
    }

    // Forgets what was held, but for a reply that comes later.
    fn let_go(&mut self)
        ensures same { (self.new.batch ≡ self.old.batch) × (self.new.sent ≡ self.old.sent) }
        ensures held { held_bytes S.gave self.new.held ≡ [] }
        ensures nothing { self.old.held ≢ Held.Parked → self.new.held ≡ Held.Nothing }
    {
        if let Held::Parked = self.held {
            return;
        }
        self.held = Held::Nothing;
    }

    /// Writes once, and says what that did. The writer may be one that doesn't wait.
    pub(crate) fn write_some<W: Write>(
        &mut self,
        writer: &mut Counting<W>,
    ) -> Result<Wrote, ConnFault>
        ensures put { PutsSome result W.Write writer.old writer.new
            (waiting_of S.gave) self.old self.new }
        ensures wrote { IfOk result
            (Writes writer.old writer.new (waiting_of S.gave) self.old self.new) }
        ensures parked { self.old.held ≡ Held.Parked → self.new.held ≡ Held.Parked }
        ensures here { self.old.held ≢ Held.Parked → self.new.held ≢ Held.Parked }
        ensures fault { IfErr result (λ fault. fault ≡ ConnFault.Writer) }
    {
        self.settle();
        write_once(&mut self.batch, &mut self.sent, writer)
    }

    // Puts what is held into the batch, where memory allows, and no part of the batch was sent.
    fn settle(&mut self)
        ensures same { waiting_of S.gave self.new ≡ waiting_of S.gave self.old }
        ensures parked { self.old.held ≡ Held.Parked → self.new.held ≡ Held.Parked }
        ensures here { self.old.held ≢ Held.Parked → self.new.held ≢ Held.Parked }
    {
        if self.sent == 0 && puts_held(&self.held, &mut self.batch) {
            self.held = Held::Nothing;
        }
    }

    /// What is left behind a write that did this.
    pub(crate) fn left_by(&self, wrote: Wrote) -> Left
        ensures { IsLeftBy wrote (waiting_of S.gave self.now) result }
    {
        if self.sent >= self.batch.len() && !self.has_held() {
            return Left::Nothing;
        }
        match wrote {
            Wrote::Some => Left::More,
            Wrote::Interrupted => Left::More,
            Wrote::Blocked => Left::Blocked,
            Wrote::Nothing => Left::NoMemory,
        }
    }
}
