//! The journal of a node, by rising ticket.
ghost use Rattle.std.specs.Prelude.{◌≡◌, option_copied};
ghost use Rattle.std.specs.List.{find};
ghost use Rattle.audit.specs.Merge.{has_ticket};
ghost use Rattle.cell_parts.specs.Journal.{Rises, tickets_of};

use node_cell::Entry;
use std::marker::Model;

/// What a node did, by rising ticket.
#[derive(Drop)]
pub(crate) struct NodeJournal {
    entries: Vec<Entry>,
}

impl Model for NodeJournal {
    ghost use Rattle.std.specs.Prelude.{List};
    ghost use Rattle.cell_parts.specs.Journal.{Rises, tickets_of};
    ghost use Rattle.cell_parts.specs.declared.entry.Entry.{Entry as JournalEntry};

    ghost Value = { List JournalEntry };

    ghost view = { λ journal. journal.entries.items };

    ghost invariant = { λ journal. Rises (tickets_of journal.entries.items) };
}

impl NodeJournal {
    /// The journal of these entries.
    pub(crate) fn new(entries: Vec<Entry>) -> NodeJournal
        requires { Rises (tickets_of entries.items) }
        ensures { result ≡ entries.items }
    {
        NodeJournal { entries }
    }

    /// The entries in order.
    pub(crate) fn entries(&self) -> &[Entry]
        ensures { result.now ≡ self.now }
    {
        self.entries.as_slice()
    }

    /// The entry under that ticket, if there is one.
    pub(crate) fn entry_under(&self, ticket: u64) -> Option<&Entry>
        ensures found { option_copied result ≡ find (has_ticket ticket) self.now }
        ensures rises { Rises (tickets_of self.now) }
    {
        let place = self
            .entries
            .as_slice()
            .binary_search_by_key(&ticket, |entry| entry.ticket());
        match place {
            Ok(place) => Some(&self.entries[place]),
            Err(_) => None,
        }
    }
}
