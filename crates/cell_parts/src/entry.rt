//! The lines of a node's journal.
ghost use Rattle.std.specs.Prelude.{◌≡◌};
ghost use Rattle.cell_parts.specs.Journal.{ticket_of};

use node_step::{Event, Outputs};

/// A line of a node's journal. It stands under the ticket that was drawn for it.
#[derive(Debug, Drop)]
pub enum Entry {
    /// The node made a step. The ticket stands in the outputs.
    Step {
        /// What happened.
        event: Event,
        /// What came out.
        outputs: Outputs,
    },
    /// The step was refused after its ticket was drawn, and nothing changed.
    Skipped {
        /// The ticket.
        ticket: u64,
    },
}

impl Entry {
    /// The ticket of the entry.
    pub fn ticket(&self) -> u64
        ensures { result ≡ ticket_of self.now }
    {
        match self {
            Entry::Step { event: _, outputs } => outputs.ticket,
            Entry::Skipped { ticket } => *ticket,
        }
    }
}
