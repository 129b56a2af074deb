//! What is left of a node that nobody serves any more.
ghost use Rattle.std.specs.Prelude.{◌≡◌};
ghost use Rattle.audit.specs.Merge.{IsOfNode};
ghost use Rattle.cell_parts.specs.Journal.{tickets_of};
ghost use Rattle.tickets.specs.Tickets.{IsSeatOf};

use crate::each_node::OfNode;
use node_cell::{Deployment, Entry, Journal, NodeCell};
use slot_table::NodeNo;
use std::marker::{Model, PhantomData};
use tickets::Seat;

/// The journal of a node of the cluster `K`, and its seat, which drew the journal's tickets.
#[derive(Drop)]
pub(crate) struct Part<K: Deployment> {
    node: NodeNo,
    entries: Vec<Entry>,
    seat: Seat,
    cluster: PhantomData<K>,
}

impl<K: Deployment> Model for Part<K> {
    ghost use Rattle.std.specs.Prelude.{◌≡◌, ◌<◌, length};
    ghost use Rattle.audit.specs.Merge.{IsOfNode, PartView};
    ghost use Rattle.cell_parts.specs.Journal.{tickets_of};
    ghost use Rattle.tickets.specs.Tickets.{drawn, seats_of, table_of};

    ghost Value = { PartView };

    ghost view = { λ part. record { node = part.node; entries = part.entries.items } };

    ghost invariant = { λ part. IsOfNode K.config part.node part.entries.items × (part.node < length K.config.nodes)
        × (drawn part.seat ≡ tickets_of part.entries.items) × (table_of part.seat ≡ K.table) × (seats_of part.seat ≡ K.seats) };
}

impl<K: Deployment> Part<K> {
    /// What is left of this cell.
    pub(crate) fn of(cell: NodeCell<K, Journal>) -> Part<K>
        ensures { result ≡ record { node = cell.node; entries = cell.journal } }
    {
        let (_, node, journal, seat) = cell.finish();
        Part {
            node,
            entries: journal.into_entries(),
            seat,
            cluster: PhantomData,
        }
    }

    /// The journal and the seat.
    pub(crate) fn into_parts(self) -> (Vec<Entry>, Seat)
        ensures entries { result.0.items ≡ self.entries }
        ensures node { IsOfNode K.config self.node self.entries }
        ensures seat { IsSeatOf K.table K.seats (tickets_of self.entries) result.1 }
    {
        let Part {
            node: _,
            entries,
            seat,
            cluster: _,
        } = self;
        (entries, seat)
    }
}

impl<K: Deployment> OfNode for Part<K> {
    ghost node = { λ part. part.node };

    fn node_number(&self) -> usize {
        self.node.index()
    }
}
