//! Claims of other nodes to slots.
ghost use Rattle.std.specs.Prelude.{◌≢◌, IfOk, OnOk};
ghost use Rattle.node_parts.specs.Drafts.{Drafts, HasNothing};
ghost use Rattle.node_step.specs.Claiming.{claim};
ghost use Rattle.node_step.specs.Streams.{written_by_claim};
ghost use Rattle.stream_requests.specs.Spelling.{Spells};
ghost use Rattle.move_rows.specs.Lost.{AreLost};

use command_table::ErrorLine;
use connections::Waiting;
use key_slot::Slot;
use node_parts::{Change, Draft, NodeParts};
use repl_stream::Stream;
use slot_store::SlotParts;
use slot_table::{Claim, NodeNo};
use std::alloc::AllocError;
use stream_requests::cleared_bytes;

/// Learns the slots of another node. Those that it takes from this one leave with their keys. It gives the requests that this writes.
#[inline(never)]
pub(crate) fn take_claim<S: SlotParts, T: Stream>(
    node: &NodeParts<S, T>,
    from: NodeNo,
    taken: &Claim,
    draft: &mut Draft,
) -> Result<Vec<u8>, AllocError>
    requires { HasNothing node.now draft.old }
    ensures draft { OnOk result (Drafts node.now (claim node.now from taken.now) draft.new) }
    ensures written { Spells result (written_by_claim node.now from taken.now) }
{
    if from == node.number {
        node.draft_change(draft, Change::Nothing);
        return Ok(Vec::new(node.alloc));
    }
    let lost = lost_to(node, from, taken)?;
    let reply = ErrorLine::NotAcknowledged.reply();
    let released = node.releases(&Waiting::In(lost.as_slice()), &reply)?;
    let claim = taken.clone()?;
    let bytes = cleared_bytes(node.alloc, &node.store, lost.as_slice())?;
    let bodies = Vec::new(node.alloc);
    let change = Change::Loses { from, claim, lost };
    node.draft_releases(draft, released, bodies, change);
    Ok(bytes)
}

// The slots of this node that the claim takes.
fn lost_to<S: SlotParts, T: Stream>(
    node: &NodeParts<S, T>,
    from: NodeNo,
    claim: &Claim,
) -> Result<Vec<Slot>, AllocError>
    requires { from ≢ node.now.number }
    ensures { IfOk result (λ lost. AreLost node.now from claim.now lost.items) }
{
    let changes = node.table.changes(node.alloc, from, claim)?;
    let mut lost = Vec::new(node.alloc);
    for slot in &changes {
        if node.table.owner(*slot) == Some(node.number) {
            lost.push(*slot)?;
        }
    }
    Ok(lost)
}
