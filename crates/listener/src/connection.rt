//! A connection from its beginning to its end, served by a thread of its own.
ghost use Rattle.std.specs.Prelude.{◌≡◌, ◌≢◌, ◌<◌, [], vec_len, length, Err, None, Some, IfOk, IfErr, IfSome, IfNone, OnOk, OnErr};
ghost use Rattle.listener.specs.Calls.{SendsAll, TalkAnswers, TalkHalts, TalkLeaves, TalkStops, TellsWhy, TurnAnswers, TurnHalts};
ghost use Rattle.listener.specs.Conversation.{IsRest, Serves, line_of};
ghost use Rattle.listener.specs.Progress.{IsOfAnswering};
ghost use Rattle.listener.specs.Streams.{change_of, streams};
ghost use Rattle.listener.specs.Turns.{Advances, HasRoom, IsHere, IsSound, Reads, ReadsNot, farewell_of, waiting_in};

use crate::farewell::Farewell;
use crate::fault::ConnFault;
use crate::input::Input;
use crate::outgoing::Held;
use crate::requests::{Next, Rest};
use crate::talk::Talk;
use node_gate::{Answered, NodeGate};
use resp2::Counting;
use std::alloc::Global;
use std::io;
use std::io::{Read, Write};

/// Serves one client: reads its requests, has the node answer them, and writes the replies, until the client ends it.
///
/// The node is asked for one connection, then once for each request, in order, and last to close the connection. All
/// whole requests of one read are answered by one write, if their replies are not long. A bad byte is reported
/// to the client and ends the conversation, as the client's own end does. The error says what else ended it.
pub fn serve_conn<R: Read, W: Write, G: NodeGate>(
    alloc: Global,
    gate: &mut G,
    reader: &mut Counting<R>,
    writer: &mut Counting<W>,
) -> Result<(), ConnFault>
    ensures { Serves G.allowed
        (change_of G.asked gate.old gate.new) (streams R.remaining reader.old reader.new)
        (streams W.contents writer.old writer.new) result }
{
    let over = talk(alloc, gate, reader, writer);
    tell(over, writer)
}

/// A conversation that is over for the node.
#[derive(Drop)]
pub(crate) struct Over<S> {
    pub(crate) ended: Result<Rest, ConnFault>,
    pub(crate) farewell: Farewell<S>,
}

// Opens a connection at the node, converses on it, and closes it.
fn talk<R: Read, W: Write, G: NodeGate>(
    alloc: Global,
    gate: &mut G,
    reader: &mut Counting<R>,
    writer: &mut Counting<W>,
) -> Over<G::Answer>
    ensures { TalkLeaves G.NodeGate gate.old gate.new R.Read reader.old reader.new
        W.Write writer.old writer.new G.Answer.gave result }
{
    let Ok(mut input) = Input::new(alloc) else {
        return refused(alloc, ConnFault::Memory);
    };
    let mut talk = match Talk::begin(alloc, gate) {
        Ok(talk) => talk,
        Err(fault) => return refused(alloc, fault),
    };
    let ended = converse(gate, &mut talk, &mut input, reader, writer);
    Over {
        ended,
        farewell: talk.end(gate, ended),
    }
}

fn refused<S: Answered + Drop>(alloc: Global, fault: ConnFault) -> Over<S>
    ensures ended { result.ended ≡ Err fault }
    ensures waits { farewell_of S.gave result.farewell ≡ line_of (Err fault) }
{
    Over {
        ended: Err(fault),
        farewell: Farewell::to_refused(alloc, fault),
    }
}

// Answers what comes on the connection, until its client ends it or a bad byte comes.
fn converse<R: Read, W: Write, G: NodeGate>(
    gate: &mut G,
    talk: &mut Talk<G::Answer>,
    input: &mut Input,
    reader: &mut Counting<R>,
    writer: &mut Counting<W>,
) -> Result<Rest, ConnFault>
    requires room { 0 < vec_len input.old.room }
    requires begins { (talk.old.requests.pending ≡ []) × IsSound talk.old }
    requires empty { waiting_in G.Answer.gave talk.old ≡ [] }
    requires free { HasRoom talk.old.outgoing }
    ensures stops { TalkStops G.NodeGate gate.old gate.new G.Answer.gave talk.old talk.new
        W.Write writer.old writer.new R.Read reader.old reader.new result }
    ensures same { talk.new.conn ≡ talk.old.conn }
    // A bad byte is no fault here: so a word that is too long is not reported as out of memory.
    ensures sound { OnErr result (IsSound talk.new) }
{
    // A loop has to end, so this one counts its reads; each gives a byte at least.
    'reads: for _ in 0..u64::MAX {
        let count = read_some(input.room.as_mut_slice(), talk, reader)?;
        if count == 0 {
            return Ok(Rest::Unfinished);
        }
        input.fit(count);
        match answer_all(gate, talk, writer)? {
            Rest::Unfinished => {}
            Rest::BadByte => return Ok(Rest::BadByte),
        }
        let Ok(()) = write_out(gate, talk, writer) else {
            return Err(ConnFault::Writer);
        };
    }
    Err(ConnFault::Endless)
}

// Reads once, and says how many bytes came. The conversation has them then.
fn read_some<R: Read, S: Answered + Drop>(
    room: &mut [u8],
    talk: &mut Talk<S>,
    reader: &mut Counting<R>,
) -> Result<usize, ConnFault>
    requires { 0 < length room.old }
    ensures read { IfOk result
        (Reads (streams R.remaining reader.old reader.new) talk.old talk.new) }
    ensures failed { IfErr result (ReadsNot (streams R.remaining reader.old reader.new)) }
    ensures kept { OnErr result (talk.new.requests ≡ talk.old.requests) }
    ensures same { (talk.new.conn ≡ talk.old.conn) × (talk.new.outgoing ≡ talk.old.outgoing) }
{
    let Ok(count) = reader.read(room) else {
        return Err(ConnFault::Reader);
    };
    talk.read(&room[..count])?;
    Ok(count)
}

// Answers all whole requests that came.
fn answer_all<W: Write, G: NodeGate>(
    gate: &mut G,
    talk: &mut Talk<G::Answer>,
    writer: &mut Counting<W>,
) -> Result<Rest, ConnFault>
    requires sound { IsSound talk.old }
    requires room { HasRoom talk.old.outgoing }
    ensures answered { OnOk result (TalkAnswers G.NodeGate gate.old gate.new G.Answer.gave
        talk.old talk.new W.Write writer.old writer.new) }
    ensures rest { IfOk result (λ rest. IsRest rest talk.new.requests.pending) }
    ensures here { OnOk result (IsHere talk.new) }
    ensures halts { IfErr result (TalkHalts G.NodeGate gate.old gate.new G.Answer.gave
        talk.old talk.new W.Write writer.old writer.new) }
    ensures fault { IfErr result IsOfAnswering }
    ensures same { talk.new.conn ≡ talk.old.conn }
    ensures good { IfOk result (λ rest. rest ≡ Rest.Unfinished → IsSound talk.new) }
    ensures sound { OnErr result (IsSound talk.new) }
{
    'turns: loop {
        if let Some(rest) = take_turn(gate, talk)? {
            return Ok(rest);
        }
        let Ok(()) = write_out(gate, talk, writer) else {
            return Err(ConnFault::Writer);
        };
    }
}

// Answers whole requests until replies are to be written, which gives None, or there is none left.
fn take_turn<S: Answered + Drop, G: NodeGate<Answer = S>>(
    gate: &mut G,
    talk: &mut Talk<S>,
) -> Result<Option<Rest>, ConnFault>
    requires sound { IsSound talk.old }
    requires room { HasRoom talk.old.outgoing }
    ensures answered { OnOk result
        (TurnAnswers G.NodeGate gate.old gate.new S.gave talk.old talk.new) }
    ensures rest { IfOk result
        (λ found. IfSome found (λ rest. IsRest rest talk.new.requests.pending)) }
    ensures shorter { IfOk result
        (λ rest. IfNone rest (Advances talk.old.requests talk.new.requests)) }
    ensures here { OnOk result (IsHere talk.new) }
    ensures good { IfOk result (λ found. found ≢ Some Rest.BadByte → IsSound talk.new) }
    ensures halts { IfErr result (TurnHalts G.NodeGate gate.old gate.new S.gave talk.old talk.new) }
    ensures fault { IfErr result IsOfAnswering }
    ensures sound { OnErr result (IsSound talk.new) }
    ensures same { talk.new.conn ≡ talk.old.conn }
{
    match talk.answer(gate, u32::MAX)? {
        Next::Read => Ok(Some(Rest::Unfinished)),
        Next::BadByte => Ok(Some(Rest::BadByte)),
        Next::Write => Ok(None),
        Next::Answer => Ok(None),
        Next::Hear => {
            talk.wait(gate)?;
            Ok(None)
        }
    }
}

// Writes what waits, while others may ask the node.
fn write_out<W: Write, G: NodeGate>(
    gate: &mut G,
    talk: &mut Talk<G::Answer>,
    writer: &mut Counting<W>,
) -> io::Result<()>
    ensures asked { G.asked gate.new ≡ G.asked gate.old }
    ensures sends { SendsAll result W.Write writer.old writer.new
        (waiting_in G.Answer.gave talk.old) }
    ensures empty { OnOk result (waiting_in G.Answer.gave talk.new ≡ []) }
    ensures room { OnOk result (IsHere talk.old → HasRoom talk.new.outgoing) }
    ensures same { (talk.new.conn ≡ talk.old.conn) × (talk.new.requests ≡ talk.old.requests) }
{
    gate.release();
    talk.write_out(writer)
}

// Writes what waits, and the line that tells the client why the conversation ended.
fn tell<S: Answered + Drop, W: Write>(
    over: Over<S>,
    writer: &mut Counting<W>,
) -> Result<(), ConnFault>
    ensures told { TellsWhy W.Write writer.old writer.new S.gave over result }
    ensures failed { over.ended ≡ Err ConnFault.Writer → result ≡ Err ConnFault.Writer }
    ensures silent { over.ended ≡ Err ConnFault.Writer → writer.new ≡ writer.old }
{
    let Over {
        ended,
        mut farewell,
    } = over;
    // A part of what waits may have been written already.
    if let Err(ConnFault::Writer) = ended {
        return Err(ConnFault::Writer);
    }
    let Ok(()) = farewell.write_out(writer) else {
        return Err(ConnFault::Writer);
    };
    ended?;
    Ok(())
}
