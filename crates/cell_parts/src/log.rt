//! Where the journal of a node goes: into memory, or into its type alone.
ghost use Rattle.std.specs.Prelude.{◌≡◌, ◌++◌, ◌∷◌, [], ◌<◌, OnOk, vec_len, vec_capacity};
ghost use Rattle.cell_parts.specs.Log.{entry_of};
ghost use Rattle.cell_parts.specs.declared.entry.Entry.TheVariants.{Step, Skipped};

use crate::entry::Entry;
use history::History;
use node_step::{Event, Outputs, Recorder};
use std::alloc::{AllocError, Global};
use std::marker::Model;
use std::snapshot::Snapshot;

/// What keeps the journal of a node. Clauses see its entries, whether the program keeps them or not.
pub trait Log: Recorder {
    ghost use Rattle.std.specs.Prelude.{List};
    ghost use Rattle.cell_parts.specs.declared.entry.Entry.{Entry as JournalEntry};

    ghost entries: { Self → List JournalEntry };

    ghost has_room: { Self → Type 0 };

    /// A log without an entry.
    fn new(alloc: Global) -> Self
        ensures { entries result ≡ [] };

    /// Makes room for one more entry.
    fn reserve(&mut self) -> Result<(), AllocError>
        ensures room { OnOk result (has_room self.new) }
        ensures same { entries self.new ≡ entries self.old };

    /// Enters a step that was made. There has to be room.
    fn enter_step(&mut self, event: Event, outputs: Self::Record)
        requires { has_room self.old }
        ensures { entries self.new ≡ entries self.old ++ Step event (Self.recorded outputs) ∷ [] };

    /// Enters a ticket under which no step was made. There has to be room.
    fn enter_skip(&mut self, ticket: u64)
        requires { has_room self.old }
        ensures { entries self.new ≡ entries self.old ++ Skipped ticket ∷ [] };
}

/// A journal in memory. It grows as long as its node lives.
#[derive(Debug, Drop)]
pub struct Journal {
    entries: Vec<Entry>,
}

impl Journal {
    /// The entries in order.
    pub fn into_entries(self) -> Vec<Entry>
        ensures { result.items ≡ ⟦<Journal as Log>⟧.entries self }
    {
        self.entries
    }
}

impl Recorder for Journal {
    type Record = Outputs;

    ghost recorded = { λ outputs. outputs };

    fn record(outputs: &Outputs) -> Result<Outputs, AllocError> {
        outputs.copy()
    }
}

impl Log for Journal {
    ghost entries = { λ journal. journal.entries.items };

    ghost has_room = { λ journal. vec_len journal.entries < vec_capacity journal.entries };

    fn new(alloc: Global) -> Journal {
        Journal {
            entries: Vec::new(alloc),
        }
    }

    fn reserve(&mut self) -> Result<(), AllocError> {
        self.entries.reserve(1)
    }

    fn enter_step(&mut self, event: Event, outputs: Outputs) {
        enter(&mut self.entries, Entry::Step { event, outputs });
    }

    fn enter_skip(&mut self, ticket: u64) {
        enter(&mut self.entries, Entry::Skipped { ticket });
    }
}

// Adds an entry to a list that has room.
fn enter(entries: &mut Vec<Entry>, entry: Entry)
    requires { vec_len entries.old < vec_capacity entries.old }
    ensures { entries.new.items ≡ entries.old.items ++ entry ∷ [] }
{
    let Ok(()) = entries.push(entry) else {
        unreachable!();
    };
}

/// A journal that only proofs read: its type says that there is one, and the program keeps nothing of it.
#[derive(Drop)]
pub struct GhostJournal {
    entries: History<GhostEntry>,
}

// An entry as only proofs read it.
#[derive(Drop)]
struct GhostEntry {
    line: Line,
}

#[derive(Drop)]
enum Line {
    Step(Snapshot<Event>, Snapshot<Outputs>),
    Skipped(u64),
}

impl Model for GhostEntry {
    ghost use Rattle.cell_parts.specs.declared.entry.Entry.{Entry as JournalEntry};

    ghost Value = { JournalEntry };

    ghost use Rattle.cell_parts.specs.Log.{entry_of};

    ghost view = { λ entry. entry_of entry.line };
}

impl Recorder for GhostJournal {
    type Record = Snapshot<Outputs>;

    ghost recorded = { λ outputs. outputs.value };

    fn record(outputs: &Outputs) -> Result<Snapshot<Outputs>, AllocError> {
        Ok(Snapshot::of(outputs))
    }
}

impl Log for GhostJournal {
    ghost entries = { λ journal. journal.entries };

    ghost has_room = { λ _. Unit {0} };

    fn new(_alloc: Global) -> GhostJournal {
        GhostJournal {
            entries: History::new(),
        }
    }

    fn reserve(&mut self) -> Result<(), AllocError> {
        Ok(())
    }

    fn enter_step(&mut self, event: Event, outputs: Snapshot<Outputs>) {
        let line = Line::Step(Snapshot::of(&event), outputs);
        self.entries.push(&GhostEntry { line });
    }

    fn enter_skip(&mut self, ticket: u64) {
        let line = Line::Skipped(ticket);
        self.entries.push(&GhostEntry { line });
    }
}
