//! What a client is still to be sent once its conversation has ended.
ghost use Rattle.std.specs.Prelude.{◌≡◌, ◌++◌, Err, IfOk, IfErr};
ghost use Rattle.listener.specs.Calls.{Accounts, PutsSome, SendsAll};
ghost use Rattle.listener.specs.Conversation.{line_of};
ghost use Rattle.listener.specs.Turns.{IsLeftBy, farewell_of, line_bytes, waiting_of};

use crate::batch::Wrote;
use crate::fault::ConnFault;
use crate::outgoing::{Left, Outgoing};
use crate::requests::Rest;
use command_table::ErrorLine;
use node_gate::Answered;
use resp2::{Counting, send_reply};
use std::alloc::Global;
use std::io;
use std::io::Write;

/// What a client is still to be sent once its conversation has ended: the replies that wait, and the line that tells it why.
#[derive(Drop)]
pub struct Farewell<S> {
    pub(crate) outgoing: Outgoing<S>,
    // The line, where there was no memory for it in the batch yet.
    pub(crate) line: Option<ErrorLine>,
}

impl<S: Answered + Drop> Farewell<S> {
    /// That of a client for which there is no connection.
    pub fn to_refused(alloc: Global, fault: ConnFault) -> Farewell<S>
        ensures { farewell_of S.gave result ≡ line_of (Err fault) }
    {
        Farewell::of(Outgoing::new(alloc), Err(fault))
    }

    /// That of a conversation which ended so, with what waits.
    pub(crate) fn of(outgoing: Outgoing<S>, ended: Result<Rest, ConnFault>) -> Farewell<S>
        ensures { farewell_of S.gave result ≡ waiting_of S.gave outgoing ++ line_of ended }
    {
        let mut farewell = Farewell {
            outgoing,
            line: line_for(ended),
        };
        farewell.settle();
        farewell
    }

    // Puts the line behind the replies, where there is memory, and no part of them was sent.
    fn settle(&mut self)
        ensures { farewell_of S.gave self.new ≡ farewell_of S.gave self.old }
    {
        if let Some(line) = self.line
            && self.outgoing.puts_line(line)
        {
            self.line = None;
        }
    }

    /// Sends some of it by one write, and says what is left. An error is that the writer failed: its count has risen.
    pub fn finish<W: Write>(&mut self, writer: &mut Counting<W>) -> Result<Left, ConnFault>
        ensures put { PutsSome result W.Write writer.old writer.new
            (farewell_of S.gave) self.old self.new }
        ensures left { IfOk result
            (Accounts writer.old writer.new (farewell_of S.gave) self.old self.new) }
        ensures fault { IfErr result (λ fault. fault ≡ ConnFault.Writer) }
    {
        self.settle();
        let wrote = self.outgoing.write_some(writer)?;
        Ok(self.left_by(wrote))
    }

    // What is left behind a write that did this.
    fn left_by(&self, wrote: Wrote) -> Left
        ensures { IsLeftBy wrote (farewell_of S.gave self.now) result }
    {
        match self.outgoing.left_by(wrote) {
            Left::Nothing if self.line.is_some() => match wrote {
                Wrote::Nothing => Left::NoMemory,
                Wrote::Some | Wrote::Interrupted | Wrote::Blocked => Left::More,
            },
            left => left,
        }
    }

    /// Sends all of it, however long the writer takes.
    pub(crate) fn write_out<W: Write>(&mut self, writer: &mut Counting<W>) -> io::Result<()>
        ensures { SendsAll result W.Write writer.old writer.new (farewell_of S.gave self.old) }
    {
        self.outgoing.write_out(writer)?;
        send_line(self.line, writer)
    }
}

// Writes the line, if there is one.
fn send_line<W: Write>(line: Option<ErrorLine>, writer: &mut Counting<W>) -> io::Result<()>
    ensures { SendsAll result W.Write writer.old writer.new (line_bytes line) }
{
    match line {
        Some(line) => send_reply(&line.reply(), writer),
        None => Ok(()),
    }
}

// The line that tells a client why its conversation ended.
fn line_for(ended: Result<Rest, ConnFault>) -> Option<ErrorLine>
    ensures { line_bytes result ≡ line_of ended }
{
    match ended {
        Ok(Rest::BadByte) => Some(ErrorLine::Protocol),
        Err(ConnFault::Memory) => Some(ErrorLine::OutOfMemory),
        Err(ConnFault::Exhausted) => Some(ErrorLine::Exhausted),
        Ok(Rest::Unfinished) => None,
        Err(ConnFault::Reader) => None,
        Err(ConnFault::Writer) => None,
        Err(ConnFault::Unanswered) => None,
        Err(ConnFault::Endless) => None,
    }
}
