//! Requests on a connection: read and asked, one after another.
ghost use Rattle.std.specs.Prelude.{◌≡◌, ◌≢◌, None, IfOk, IfErr, OnErr};
ghost use Rattle.resp_values.specs.Request.{IsRequest};
ghost use Rattle.node_gate.specs.Asks.{outcome_of, IsOwn};
ghost use Rattle.listener.specs.Calls.{AsksFor, AsksOnce, HaltsFor, TakesTurn, TurnHalts};
ghost use Rattle.listener.specs.Progress.{IsOfAnswering};
ghost use Rattle.listener.specs.Turns.{EndsTurn, GoesOn, HasCome, HasRoom, talk_of};

use crate::fault::ConnFault;
use crate::outgoing::{Held, Outgoing};
use connections::Conn;
use node_gate::{Answered, NodeGate};
use node_step::{Event, Response, StepFault};
use resp2::{Fault, Reader, Words};

/// What is left of the input behind the last whole request.
#[derive(Clone, Copy, PartialEq, Eq, Debug)]
pub enum Rest {
    /// The beginning of a request, perhaps of no bytes.
    Unfinished,
    /// Bytes of which one is bad.
    BadByte,
}

/// What comes next in a conversation, behind a turn of it.
#[derive(Clone, Copy, PartialEq, Eq, Debug)]
pub enum Next {
    /// All whole requests are answered: more bytes are to be read.
    Read,
    /// All requests in front of a bad byte are answered. It ends the conversation.
    BadByte,
    /// The replies are to be written before more requests are answered.
    Write,
    /// The last request was parked: its reply is to be heard before more requests are answered.
    Hear,
    /// As many requests were answered as were wanted.
    Answer,
}

/// Answers whole requests that the reader has, so many at most.
pub(crate) fn answer_some<S: Answered + Drop, G: NodeGate<Answer = S>>(
    gate: &mut G,
    conn: Conn,
    most: u32,
    requests: &mut Reader,
    outgoing: &mut Outgoing<S>,
) -> Result<Next, ConnFault>
    requires { outgoing.old.held ≢ Held.Parked }
    ensures turns { IfOk result (TakesTurn G.NodeGate gate.old gate.new S.gave
        (talk_of conn requests.old outgoing.old) (talk_of conn requests.new outgoing.new)) }
    ensures ends { IfOk result (λ next. EndsTurn next requests.old requests.new outgoing.new) }
    ensures goes_on { IfOk result (GoesOn most outgoing.old requests.old requests.new) }
    ensures halts { IfErr result (TurnHalts G.NodeGate gate.old gate.new S.gave
        (talk_of conn requests.old outgoing.old) (talk_of conn requests.new outgoing.new)) }
    ensures fault { IfErr result IsOfAnswering }
    // A bad byte is no fault here: so a word that is too long is not reported as out of memory.
    ensures sound { OnErr result (requests.old.fault ≡ None → requests.new.fault ≡ None) }
{
    'requests: for _ in 0..most {
        if !outgoing.has_room() {
            return Ok(Next::Write);
        }
        match requests.next() {
            Ok(Some(words)) => {
                if !answer_request(gate, conn, words, outgoing)? {
                    return Ok(Next::Hear);
                }
            }
            Ok(None) => return Ok(Next::Read),
            Err(Fault::Memory) => return Err(ConnFault::Memory),
            Err(Fault::Protocol) => return Ok(Next::BadByte),
            Err(Fault::TooLong) => return Ok(Next::BadByte),
        }
    }
    Ok(Next::Answer)
}

// Asks the node, puts the reply behind those that wait, and says whether it has come. This holds whatever bytes come behind the request.
#[inline(always)]
fn answer_request<S: Answered + Drop, G: NodeGate<Answer = S>>(
    gate: &mut G,
    conn: Conn,
    words: Words,
    outgoing: &mut Outgoing<S>,
) -> Result<bool, ConnFault>
    requires request { IsRequest words }
    requires room { HasRoom outgoing.old }
    ensures answered { IfOk result (AsksFor G.NodeGate gate.old gate.new S.gave
        conn words outgoing.old outgoing.new) }
    ensures held { IfOk result (HasCome outgoing.new) }
    ensures halts { IfErr result (HaltsFor G.NodeGate gate.old gate.new S.gave
        conn words outgoing.old outgoing.new) }
    ensures fault { IfErr result IsOfAnswering }
{
    let step = ask_node(gate, Event::Request(conn, words))?;
    match step.response() {
        Response::Replied(_) => {}
        Response::Parked => {
            outgoing.held = Held::Parked;
            return Ok(false);
        }
        _ => return Err(ConnFault::Unanswered),
    }
    outgoing.put(step);
    Ok(true)
}

/// Asks the node once, and lets others ask it.
pub(crate) fn ask_alone<G: NodeGate>(gate: &mut G, event: Event) -> Result<G::Answer, StepFault>
    requires { IsOwn event }
    ensures { AsksOnce G.NodeGate gate.old gate.new event (outcome_of G.Answer.gave result) }
{
    let answer = ask_node(gate, event);
    gate.release();
    answer
}

// Asks the node once. Others wait until they are let in.
#[inline(always)]
fn ask_node<G: NodeGate>(gate: &mut G, event: Event) -> Result<G::Answer, StepFault>
    requires { IsOwn event }
    ensures { AsksOnce G.NodeGate gate.old gate.new event (outcome_of G.Answer.gave result) }
{
    gate.step(event)
}
