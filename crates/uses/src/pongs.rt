//! A node in memory that answers each request with PONG: what a conversation writes is then known to the byte.
ghost use Rattle.std.specs.Prelude.{◌≡◌, IfOk};
ghost use Rattle.uses.specs.Pongs.{outputs_for, pong_answer, AreAnsweredExactly};

use connections::Conn;
use history::History;
use listener::{ConnFault, serve_conn};
use node_gate::{Answered, NodeGate};
use node_step::{Answer, Event, Messages, Outputs, Promoted, Releases, Response, StepFault, Why};
use redirect::Decision;
use resp2::{Counting, Line, Reply, a_stream_is_read_in_one_way, no_unfinished_is_whole};
use std::alloc::Global;
use std::marker::Model;
use std::snapshot::Snapshot;

/// A node that has one connection, and answers each request with PONG.
#[derive(Drop)]
pub struct PongGate {
    asked: History<Asking>,
}

// What the node was asked for: a step, or a reply that never comes. Only proofs read it.
#[derive(Drop)]
enum Note {
    Stepped(Snapshot<Event>, Snapshot<Outputs>),
    Waited(Conn),
}

#[derive(Drop)]
struct Asking {
    note: Note,
}

impl Model for Asking {
    ghost use Rattle.node_gate.specs.Asks.{Asked};
    ghost use Rattle.uses.specs.Notes.{noted};

    ghost Value = { Asked };

    ghost view = { λ asking. noted asking.note };
}

impl PongGate {
    /// The node, which was asked nothing yet.
    pub fn new() -> PongGate {
        PongGate {
            asked: History::new(),
        }
    }
}

/// A step of this node.
#[derive(Drop)]
pub struct PongStep {
    /// What it was made for.
    pub event: Event,
    /// What came out.
    pub outputs: Outputs,
}

impl Answered for PongStep {
    ghost event = { λ step. step.event };

    ghost gave = { λ step. step.outputs };

    fn response(&self) -> &Response {
        &self.outputs.response
    }
}

impl NodeGate for PongGate {
    type Answer = PongStep;

    ghost use Rattle.uses.specs.Pongs.{IsPong};

    ghost asked = { λ gate. gate.asked };

    ghost allowed = { IsPong };

    fn step(&mut self, event: Event) -> Result<PongStep, StepFault> {
        let outputs = outputs_for(&event);
        self.asked.push(&Asking {
            note: Note::Stepped(Snapshot::of(&event), Snapshot::of(&outputs)),
        });
        Ok(PongStep { event, outputs })
    }

    fn wait(&mut self, conn: Conn) -> Option<Reply> {
        self.asked.push(&Asking {
            note: Note::Waited(conn),
        });
        None
    }

    fn release(&mut self) {}
}

fn outputs_for(event: &Event) -> Outputs
    ensures { result ≡ outputs_for event.now }
{
    let response = match event {
        Event::Open => Response::Opened(Conn {
            key: 0,
            generation: 0,
        }),
        Event::Request(_, _) => Response::Replied(pong()),
        Event::Close(_) | Event::Deliver(_) | Event::Tick => Response::Nothing,
    };
    Outputs {
        ticket: 0,
        response,
        released: Releases::new(),
        sent: Messages::new(),
        promoted: Promoted::none(),
    }
}

fn pong() -> Answer
    ensures { result ≡ pong_answer }
{
    Answer {
        why: Why::Decided(Decision::Serve),
        reply: Reply::Simple(Line::from_static(b"PONG")),
    }
}

/// The bytes that a client reads who sends `input` and then nothing more.
pub fn exact_answers(alloc: Global, input: &[u8]) -> Result<Vec<u8>, ConnFault>
    ensures { IfOk result (λ output. AreAnsweredExactly input.now output.items) }
{
    let mut reader = Counting::new(input);
    let mut writer = Counting::new(Vec::new(alloc));
    let mut gate = PongGate::new();
    serve_conn(alloc, &mut gate, &mut reader, &mut writer)?;
    // Nothing whole is left where the client ended it, and there is no other reading of what it sent.
    no_unfinished_is_whole();
    a_stream_is_read_in_one_way();
    Ok(writer.into_inner())
}
