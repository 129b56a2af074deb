//! What the nodes of a world did, as proofs see it.
ghost use Rattle.std.specs.Prelude.{◌≡◌, ◌++◌, ◌∷◌, [], OnErr};
ghost use Rattle.node_step.specs.Numbers.{NoNumberLeft};
ghost use Rattle.world_run.specs.Run.Deed.{Made, Skipped};
ghost use Rattle.world_nodes.specs.Entered.{IfMade, IfSkipped, Steps};
ghost use Rattle.world_nodes.specs.Lines.{deed_of};

use history::History;
use node_core::{Core, Event, Outputs, Recorder, StepFault};
use std::alloc::AllocError;
use std::marker::Model;
use std::snapshot::Snapshot;

// What a node did.
#[derive(Drop)]
enum Doing {
    Made(Snapshot<Event>, Snapshot<Outputs>),
    Skipped,
}

// An entry as only proofs read it.
#[derive(Drop)]
struct Line {
    node: u64,
    ticket: u64,
    doing: Doing,
}

impl Model for Line {
    ghost use Rattle.world_run.specs.Run.{Entry};

    ghost Value = { Entry };

    ghost use Rattle.world_nodes.specs.Lines.{deed_of};

    ghost view = { λ line.
        record { node = line.node; ticket = line.ticket; deed = deed_of line.doing } };
}

/// What the nodes did, an entry a ticket. Only proofs read the entries, so they take no memory.
#[derive(Drop)]
pub struct Entries {
    lines: History<Line>,
    // How many there are, as far as 64 bits count.
    count: u64,
}

impl Model for Entries {
    ghost use Rattle.std.specs.Prelude.{◌≡◌, List};
    ghost use Rattle.world_run.specs.Run.{Entry};
    ghost use Rattle.world_nodes.specs.Entered.{ticket_behind};

    ghost Value = { List Entry };

    ghost view = { λ entries. entries.lines };

    ghost invariant = { λ entries. entries.count ≡ ticket_behind entries.lines };
}

// Of the outputs of a step only proofs keep something.
struct Seen;

impl Recorder for Seen {
    type Record = Snapshot<Outputs>;

    ghost recorded = { λ outputs. outputs.value };

    fn record(outputs: &Outputs) -> Result<Snapshot<Outputs>, AllocError> {
        Ok(Snapshot::of(outputs))
    }
}

impl Entries {
    /// No entry.
    pub fn new() -> Entries
        ensures { result ≡ [] }
    {
        Entries {
            lines: History::new(),
            count: 0,
        }
    }

    /// Has the node make its step for the event, and enters it. None says that a number has no next one: then the node is as
    /// before, and that is entered.
    pub fn step(
        &mut self,
        core: &mut Core,
        node: u64,
        event: &Event,
    ) -> Result<Option<Outputs>, AllocError>
        ensures made { IfMade result
            (λ outputs. Steps self.old core.old node (Made event.now outputs) self.new core.new) }
        ensures skipped { IfSkipped result
            (Steps self.old core.old node Skipped self.new core.new) }
        ensures number { IfSkipped result (NoNumberLeft core.old event.now) }
        ensures err { OnErr result ((self.new ≡ self.old) × (core.new ≡ core.old)) }
    {
        let ticket = self.count;
        match core.step::<Seen>(ticket, event) {
            Ok((outputs, recorded)) => {
                let doing = Doing::Made(Snapshot::of(event), recorded);
                self.enter(node, ticket, doing);
                Ok(Some(outputs))
            }
            Err(StepFault::Exhausted) => {
                self.enter(node, ticket, Doing::Skipped);
                Ok(None)
            }
            Err(StepFault::Memory) => Err(AllocError),
        }
    }

    fn enter(&mut self, node: u64, ticket: u64, doing: Doing)
        ensures { self.new
            ≡ self.old ++ (record { node = node; ticket = ticket; deed = deed_of doing }) ∷ [] }
    {
        self.lines.push(&Line {
            node,
            ticket,
            doing,
        });
        self.count = self.count.saturating_add(1);
    }
}
