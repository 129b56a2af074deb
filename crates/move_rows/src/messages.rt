//! What another node says of slots.
ghost use Rattle.std.specs.Prelude.{OnOk};
ghost use Rattle.node_parts.specs.Drafts.{Drafts, HasNothing};
ghost use Rattle.node_step.specs.Messages.{taken_of_slots, written_by_slots};
ghost use Rattle.stream_requests.specs.Spelling.{Spells};

use crate::claims::take_claim;
use crate::copies::{take_ack, take_copy, take_drained};
use bus::SlotsBody;
use node_parts::{Draft, NodeParts};
use repl_stream::Stream;
use slot_store::SlotParts;
use slot_table::NodeNo;
use std::alloc::AllocError;

/// Takes what that node says, and gives the requests that it writes.
pub fn take_of_slots<S: SlotParts, T: Stream>(
    node: &NodeParts<S, T>,
    from: NodeNo,
    body: &SlotsBody,
    draft: &mut Draft,
) -> Result<Vec<u8>, AllocError>
    requires { HasNothing node.now draft.old }
    ensures draft { OnOk result
        (Drafts node.now (taken_of_slots node.now from body.now) draft.new) }
    ensures written { Spells result (written_by_slots node.now from body.now) }
{
    match body {
        SlotsBody::Copy { id, pairs } => take_copy(node, from, *id, pairs.as_slice(), draft),
        SlotsBody::Ack(id) => take_ack(node, from, *id, draft),
        SlotsBody::Drained {
            slot,
            number,
            epoch,
        } => {
            take_drained(node, from, *slot, *number, *epoch, draft);
            Ok(Vec::new(node.alloc))
        }
        SlotsBody::Claim(claim, _replaced) => take_claim(node, from, claim, draft),
    }
}
