//! A replica takes the place of its master.
ghost use Rattle.std.specs.Prelude.{◌≡◌, IfOk};
ghost use Rattle.node_parts.specs.Succession.{promoted_by, replacement, succeeding};

use crate::masters::succeed;
use crate::parts::NodeParts;
use bus::{Replaced, StreamId};
use node_step::{Promoted, Promotion};
use repl_stream::Stream;
use slot_store::SlotParts;
use slot_table::{Epoch, NodeNo, SlotTable};
use std::alloc::AllocError;

/// That a node takes the place of its master, decided and not done yet.
#[derive(Drop)]
pub struct Succession {
    /// Who owns which slot from then on.
    pub table: SlotTable,
    /// The master.
    pub master: NodeNo,
    /// The epoch of the election.
    pub epoch: Epoch,
    /// The master hands its slots over.
    pub planned: bool,
}

impl<S: SlotParts, T: Stream> NodeParts<S, T> {
    /// The promotion, as it comes out of the step, if there is one.
    pub fn promoted(&self, succession: &Option<Succession>) -> Result<Promoted, AllocError>
        ensures { IfOk result (λ promoted. promoted ≡ promoted_by self.now succession.now) }
    {
        let Some(succession) = succession else {
            return Ok(Promoted::none());
        };
        let promotion = Promotion {
            stream: self.stream.id(),
            offset: self.stream.offset(),
            epoch: succession.epoch,
            planned: succession.planned,
        };
        Promoted::new(self.alloc, promotion)
    }

    /// The node is a master from now on, with a stream of its own that goes on from the last whole write.
    pub fn succeed(&mut self, succession: Succession)
        ensures { self.new ≡ succeeding self.old succession }
    {
        let Succession {
            table,
            master,
            epoch,
            planned: _,
        } = succession;
        self.table = table;
        let masters = &mut self.election.masters;
        succeed(&mut masters[..], master, self.number);
        self.election.candidate.forget();
        self.election.begun = None;
        self.asks_master = false;
        self.note = None;
        self.election.replaced = Some(self.in_place_of(master, epoch));
        self.stream.promote(own_stream(self.number, epoch));
    }

    // Whose place it takes, and where its stream begins.
    fn in_place_of(&self, master: NodeNo, epoch: Epoch) -> Replaced
        ensures { result ≡ replacement self.now master epoch }
    {
        Replaced {
            master,
            stream: own_stream(self.number, epoch),
            offset: self.stream.offset(),
        }
    }
}

// The stream that a node begins in an epoch.
fn own_stream(node: NodeNo, epoch: Epoch) -> StreamId
    ensures { result ≡ record { node = node; epoch = epoch } }
{
    StreamId { node, epoch }
}
