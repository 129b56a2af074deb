//! What was asked of a node through one gate.
ghost use Rattle.std.specs.Prelude.{◌≡◌, ◌<◌, ◌++◌, ◌∷◌, [], length, None, Some, IfOk, IfErr, IfNone, IfSome};
ghost use Rattle.node_cell.specs.Asks.{noted};
ghost use Rattle.node_cell.specs.Cells.{IsReplyGiven, without_reply};
ghost use Rattle.node_gate.specs.Asks.{IsOwn};
ghost use Rattle.node_gate.specs.Asks.Asked.{asking, waiting};
ghost use Rattle.node_step.specs.Released.{reply_to};
ghost use Rattle.cell_parts.specs.Journal.{Enters, HasHistory, IsRefused, outcome_entered};

use crate::cell::NodeCell;
use crate::entered::Entered;
use cell_parts::{Deployment, Log};
use history::History;
use node_core::{Conn, Event, Outputs, StepFault};
use resp_values::Reply;
use std::marker::{Model, PhantomData};
use std::snapshot::Snapshot;

// What was asked of a node, and what came of it.
#[derive(Drop)]
enum Note {
    Stepped(Snapshot<Event>, Snapshot<Snapshot<Outputs>>),
    Refused(Snapshot<Event>, StepFault),
    Waited(Conn, Snapshot<Option<Reply>>),
}

#[derive(Drop)]
struct Asking {
    note: Note,
}

impl Model for Asking {
    ghost use Rattle.node_gate.specs.Asks.{Asked};
    ghost use Rattle.node_cell.specs.Asks.{noted};

    ghost Value = { Asked };

    ghost view = { λ asking. noted asking.note };
}

/// What was asked of a node of the cluster `K` through one gate: the events that were given to it and the replies that were waited
/// for, each with what came of it. Only proofs read it.
///
/// Nobody asks a node or takes a reply from it but by this, and it begins with an [`Admission`](crate::Admission) alone. So a gate
/// that says what was asked through it says all that it asked, and all replies that it took.
pub struct Asks<K: Deployment> {
    asked: History<Asking>,
    cluster: PhantomData<K>,
}

impl<K: Deployment> Model for Asks<K> {
    ghost use Rattle.std.specs.Prelude.{List};
    ghost use Rattle.node_gate.specs.Asks.{Asked};

    ghost Value = { List Asked };

    ghost view = { λ asks. asks.asked };
}

impl<K: Deployment> Drop for Asks<K> {
    fn drop(self) {
        let Asks {
            asked: _,
            cluster: _,
        } = self;
    }
}

impl<K: Deployment> Asks<K> {
    // Nothing was asked.
    pub(crate) fn new() -> Asks<K>
        ensures { result ≡ [] }
    {
        Asks {
            asked: History::new(),
            cluster: PhantomData,
        }
    }

    /// Has the node make its step for an event that is no message, and notes what came of it: one ticket, one step, one entry.
    ///
    /// Memory and Exhausted leave the node as it was. A refusal before a ticket was drawn leaves no entry; a refusal after
    /// that leaves the ticket as skipped.
    #[inline(always)]
    pub fn ask_node<L: Log>(
        &mut self,
        cell: &mut NodeCell<K, L>,
        event: Event,
    ) -> Result<Entered<K>, StepFault>
        requires own { IsOwn event }
        ensures asked { self.new ≡ self.old ++ asking event (outcome_entered result) ∷ [] }
        ensures cluster { cell.old.config ≡ K.config }
        ensures number { cell.old.node < length cell.old.config.nodes }
        ensures history { HasHistory cell.old }
        ensures ok { IfOk result (λ entered. Enters cell.old event entered cell.new) }
        ensures err { IfErr result (λ fault. IsRefused cell.old event fault cell.new) }
    {
        let asked = Snapshot::of(&event);
        let answered = cell.apply(event);
        self.asked.push(&Asking {
            note: note_of(asked, &answered),
        });
        answered
    }

    /// Takes the first reply that waits at the node for the connection, and notes that it came.
    pub fn take_reply<L: Log>(&mut self, cell: &mut NodeCell<K, L>, conn: Conn) -> Option<Reply>
        ensures came { IfSome result
            (λ reply. self.new ≡ self.old ++ waiting conn (Some reply) ∷ []) }
        ensures none { IfNone result (self.new ≡ self.old) }
        ensures cluster { cell.old.config ≡ K.config }
        ensures number { cell.old.node < length cell.old.config.nodes }
        ensures history { HasHistory cell.old }
        ensures given { IfSome result (IsReplyGiven cell.old.journal conn) }
        ensures reply { result ≡ reply_to conn cell.old.undelivered }
        ensures left { cell.new ≡ without_reply conn cell.old }
    {
        let found = cell.take_reply(conn);
        if found.is_some() {
            self.note_wait(conn, &found);
        }
        found
    }

    /// Notes that no reply will come to the connection that waited for one.
    pub fn note_none(&mut self, conn: Conn)
        ensures { self.new ≡ self.old ++ waiting conn None ∷ [] }
    {
        self.note_wait(conn, &None);
    }

    // Notes what came to the connection that waited.
    fn note_wait(&mut self, conn: Conn, reply: &Option<Reply>)
        ensures { self.new ≡ self.old ++ waiting conn reply.now ∷ [] }
    {
        self.asked.push(&Asking {
            note: Note::Waited(conn, Snapshot::of(reply)),
        });
    }
}

// What came of an event, as it is noted.
fn note_of<K: Deployment>(event: Snapshot<Event>, answered: &Result<Entered<K>, StepFault>) -> Note
    ensures { noted result ≡ asking event.value (outcome_entered answered.now) }
{
    match answered {
        Ok(entered) => Note::Stepped(event, Snapshot::of(entered.gave())),
        Err(fault) => Note::Refused(event, *fault),
    }
}
