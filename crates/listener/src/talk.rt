//! A conversation between two turns.
ghost use Rattle.std.specs.Prelude.{◌≡◌, ◌++◌, [], true, false, Ok, None, IfOk, IfErr, OnOk, OnErr, MatchBool};
ghost use Rattle.resp_values.specs.Reply.{reply_spelling};
ghost use Rattle.listener.specs.Calls.{Accounts, PutsSome, ReadsOnce, SendsAll, TakesTurn, TurnHalts, TurnHears, WaitsOnce};
ghost use Rattle.listener.specs.Conversation.{line_of};
ghost use Rattle.listener.specs.Progress.{Closes, IsOfAnswering, Opens, Refuses};
ghost use Rattle.listener.specs.Streams.{change_of, streams};
ghost use Rattle.listener.specs.Turns.{GoesOn, HasRoom, IsHere, IsParked, IsSound, LeavesOff, ReadsNot, farewell_of, waiting_in};

use crate::farewell::Farewell;
use crate::fault::ConnFault;
use crate::outgoing::{Held, Left, Outgoing};
use crate::reading::{Came, read_once};
use crate::requests::{Next, Rest, answer_some, ask_alone};
use crate::shared_gate::SharedGate;
use connections::Conn;
use node_gate::{Answered, NodeGate};
use node_step::{Event, Response};
use resp2::{Counting, Reader, Reply};
use std::alloc::Global;
use std::io;
use std::io::{Read, Write};

/// A conversation between two of its turns: its connection, the bytes that are not answered yet, and what the client is still to be
/// sent.
///
/// A turn reads the bytes that came ([`read_once`](Talk::read_once)), has the node answer requests ([`answer`](Talk::answer)), and sends
/// replies ([`finish`](Talk::finish)). None of them waits for the client, so one thread serves many.
#[derive(Drop)]
pub struct Talk<S> {
    pub(crate) conn: Conn,
    pub(crate) requests: Reader,
    pub(crate) outgoing: Outgoing<S>,
}

impl<S: Answered + Drop> Talk<S> {
    /// Opens a connection at the node.
    pub fn begin<G: NodeGate<Answer = S>>(alloc: Global, gate: &mut G) -> Result<Talk<S>, ConnFault>
        ensures opened { IfOk result
            (λ it. Opens G.allowed (change_of G.asked gate.old gate.new) it.conn) }
        ensures unread { IfOk result (λ talk. (talk.requests.pending ≡ []) × IsSound talk) }
        ensures empty { IfOk result (λ talk. waiting_in S.gave talk ≡ []) }
        ensures room { IfOk result (λ talk. HasRoom talk.outgoing) }
        ensures refused { IfErr result (Refuses G.allowed (change_of G.asked gate.old gate.new)) }
    {
        let conn = open(gate)?;
        Ok(Talk {
            conn,
            requests: Reader::new(alloc),
            outgoing: Outgoing::new(alloc),
        })
    }

    /// Whether the last request was parked, so that its reply is to be heard.
    pub fn is_parked(&self) -> bool
        ensures { MatchBool result (IsParked self.now) (IsHere self.now) }
    {
        matches!(self.outgoing.held, Held::Parked)
    }

    /// Reads once, and takes what came. The reader may be one that doesn't wait.
    pub fn read_once<R: Read>(
        &mut self,
        reader: &mut Counting<R>,
        room: &mut [u8],
    ) -> Result<Came, ConnFault>
        ensures read { IfOk result
            (ReadsOnce R.Read reader.old reader.new room.new self.old self.new) }
        ensures failed { IfErr result (ReadsNot (streams R.remaining reader.old reader.new)) }
        ensures kept { OnErr result (self.new.requests ≡ self.old.requests) }
        ensures same { (self.new.conn ≡ self.old.conn) × (self.new.outgoing ≡ self.old.outgoing) }
    {
        let came = read_once(reader, room)?;
        if let Came::Bytes(count) = came {
            self.read(&room[..count])?;
        }
        Ok(came)
    }

    /// Takes bytes that the client sent. An error is that there is no memory for them.
    pub(crate) fn read(&mut self, bytes: &[u8]) -> Result<(), ConnFault>
        ensures took { OnOk result
            (self.new.requests.pending ≡ self.old.requests.pending ++ bytes.now) }
        ensures good { OnOk result (self.new.requests.fault ≡ self.old.requests.fault) }
        ensures refused { OnErr result (self.new.requests ≡ self.old.requests) }
        ensures fault { IfErr result (λ fault. fault ≡ ConnFault.Memory) }
        ensures same { (self.new.conn ≡ self.old.conn) × (self.new.outgoing ≡ self.old.outgoing) }
    {
        match self.requests.feed(bytes) {
            Ok(()) => Ok(()),
            Err(_) => Err(ConnFault::Memory),
        }
    }

    /// Has the node answer whole requests that came, in order, so many at most, and says what comes next. While one is parked none is
    /// asked. The node is kept until the gate releases it.
    ///
    /// A fault ends the conversation: the requests in front of that one are answered.
    pub fn answer<G: NodeGate<Answer = S>>(
        &mut self,
        gate: &mut G,
        most: u32,
    ) -> Result<Next, ConnFault>
        ensures parked { IsParked self.old → result ≡ Ok Next.Hear }
        ensures waits { IsParked self.old → (self.new ≡ self.old) × (gate.new ≡ gate.old) }
        ensures turns { IsHere self.old
            → IfOk result (TakesTurn G.NodeGate gate.old gate.new S.gave self.old self.new) }
        ensures ends { IsHere self.old → IfOk result (LeavesOff self.old self.new) }
        ensures goes_on { IfOk result
            (GoesOn most self.old.outgoing self.old.requests self.new.requests) }
        ensures halts { IfErr result
            (TurnHalts G.NodeGate gate.old gate.new S.gave self.old self.new) }
        ensures fault { IfErr result IsOfAnswering }
        ensures sound { OnErr result (IsSound self.old → IsSound self.new) }
        ensures same { self.new.conn ≡ self.old.conn }
    {
        if self.is_parked() {
            return Ok(Next::Hear);
        }
        answer_some(
            gate,
            self.conn,
            most,
            &mut self.requests,
            &mut self.outgoing,
        )
    }

    /// Takes the reply that comes later, if the node has it by now, and says whether it has.
    pub fn listen<G: SharedGate<Answer = S>>(&mut self, gate: &mut G) -> bool
        requires { IsParked self.old }
        ensures heard { result ≡ true
            → TurnHears G.NodeGate gate.old gate.new S.gave self.old self.new }
        ensures here { result ≡ true → IsHere self.new }
        ensures none { result ≡ false
            → (self.new ≡ self.old) × (G.asked gate.new ≡ G.asked gate.old) }
        ensures same { (self.new.conn ≡ self.old.conn) × (self.new.requests ≡ self.old.requests) }
    {
        let Some(reply) = gate.look(self.conn) else {
            return false;
        };
        self.hear(reply);
        true
    }

    /// Waits for the reply that comes later. A fault is that none will come any more.
    pub fn wait<G: NodeGate<Answer = S>>(&mut self, gate: &mut G) -> Result<(), ConnFault>
        requires { IsParked self.old }
        ensures heard { OnOk result
            (TurnHears G.NodeGate gate.old gate.new S.gave self.old self.new) }
        ensures here { OnOk result (IsHere self.new) }
        ensures none { OnErr result (WaitsOnce G.NodeGate gate.old gate.new self.old.conn None) }
        ensures kept { OnErr result (self.new ≡ self.old) }
        ensures fault { IfErr result (λ fault. fault ≡ ConnFault.Unanswered) }
        ensures same { (self.new.conn ≡ self.old.conn) × (self.new.requests ≡ self.old.requests) }
    {
        let Some(reply) = gate.wait(self.conn) else {
            return Err(ConnFault::Unanswered);
        };
        self.hear(reply);
        Ok(())
    }

    /// Puts the reply that came later behind those that wait.
    pub(crate) fn hear(&mut self, reply: Reply)
        requires { IsParked self.old }
        ensures put { waiting_in S.gave self.new
            ≡ waiting_in S.gave self.old ++ reply_spelling reply }
        ensures here { IsHere self.new }
        ensures same { (self.new.conn ≡ self.old.conn) × (self.new.requests ≡ self.old.requests) }
    {
        self.outgoing.hear(reply);
    }

    /// Sends some of the replies by one write, and says what is left. An error is that the writer failed: its count has risen.
    pub fn finish<W: Write>(&mut self, writer: &mut Counting<W>) -> Result<Left, ConnFault>
        ensures put { PutsSome result W.Write writer.old writer.new
            (waiting_in S.gave) self.old self.new }
        ensures left { IfOk result
            (Accounts writer.old writer.new (waiting_in S.gave) self.old self.new) }
        ensures parked { IsParked self.old → IsParked self.new }
        ensures here { IsHere self.old → IsHere self.new }
        ensures same { (self.new.conn ≡ self.old.conn) × (self.new.requests ≡ self.old.requests) }
        ensures fault { IfErr result (λ fault. fault ≡ ConnFault.Writer) }
    {
        let wrote = self.outgoing.write_some(writer)?;
        Ok(self.outgoing.left_by(wrote))
    }

    /// Sends all replies that wait, however long the writer takes.
    pub(crate) fn write_out<W: Write>(&mut self, writer: &mut Counting<W>) -> io::Result<()>
        ensures sends { SendsAll result W.Write writer.old writer.new (waiting_in S.gave self.old) }
        ensures empty { OnOk result (waiting_in S.gave self.new ≡ []) }
        ensures room { OnOk result (IsHere self.old → HasRoom self.new.outgoing) }
        ensures same { (self.new.conn ≡ self.old.conn) × (self.new.requests ≡ self.old.requests) }
    {
        self.outgoing.write_out(writer)
    }

    /// Closes the connection at the node. What is left is what the client is still to be sent, with the line that tells it why the
    /// conversation ended.
    pub fn end<G: NodeGate<Answer = S>>(
        self,
        gate: &mut G,
        ended: Result<Rest, ConnFault>,
    ) -> Farewell<S>
        ensures closed { Closes G.allowed (change_of G.asked gate.old gate.new) self.conn }
        ensures waits { farewell_of S.gave result ≡ waiting_in S.gave self ++ line_of ended }
    {
        close(gate, self.conn);
        Farewell::of(self.outgoing, ended)
    }
}

// A new connection at the node.
fn open<G: NodeGate>(gate: &mut G) -> Result<Conn, ConnFault>
    ensures ok { IfOk result (Opens G.allowed (change_of G.asked gate.old gate.new)) }
    ensures err { IfErr result (Refuses G.allowed (change_of G.asked gate.old gate.new)) }
{
    let step = ask_alone(gate, Event::Open)?;
    let Response::Opened(conn) = step.response() else {
        return Err(ConnFault::Unanswered);
    };
    Ok(*conn)
}

// Closes the connection. Where the node refuses, it stays open there.
fn close<G: NodeGate>(gate: &mut G, conn: Conn)
    ensures { Closes G.allowed (change_of G.asked gate.old gate.new) conn }
{
    let _step = ask_alone(gate, Event::Close(conn));
}
