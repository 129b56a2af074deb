//! What is sent again at a tick, since it isn't acknowledged.
ghost use Rattle.std.specs.Prelude.{◌≡◌, IfOk};
ghost use Rattle.node_parts.specs.Drafts.{bodies_of};
ghost use Rattle.node_step.specs.Ticks.{sent_again};
ghost use Rattle.move_rows.specs.Lost.{all_sent_again};

use crate::migrations::copy_of;
use bus::Body;
use key_slot::Slot;
use migrate::{Resend, resent};
use node_parts::NodeParts;
use repl_stream::Stream;
use slot_state::{CopyId, Move};
use slot_store::SlotParts;
use slot_table::NodeNo;
use std::alloc::AllocError;

/// What is sent again at a tick, by rising slot.
pub fn sent_again<S: SlotParts, T: Stream>(
    node: &NodeParts<S, T>,
) -> Result<Vec<(NodeNo, Body)>, AllocError>
    ensures { IfOk result (λ bodies. bodies.items ≡ all_sent_again node.now) }
{
    let mut bodies = Vec::new(node.alloc);
    for (slot, running) in node.moves.iter() {
        if let Some(body) = sent_again_in(node, *slot, running)? {
            bodies.push(body)?;
        }
    }
    Ok(bodies)
}

// Of one slot: the copy that is not acknowledged, or the word that no key is left.
fn sent_again_in<S: SlotParts, T: Stream>(
    node: &NodeParts<S, T>,
    slot: Slot,
    running: &Move,
) -> Result<Option<(NodeNo, Body)>, AllocError>
    ensures { IfOk result (λ body. bodies_of body ≡ sent_again node.now (slot, running.now)) }
{
    let Some(again) = resent(running) else {
        return Ok(None);
    };
    match again {
        Resend::Drained { .. } => Ok(node.drained_if_empty(slot)),
        Resend::Copy {
            to,
            number,
            copy,
            keys,
        } => {
            let id = CopyId { slot, number, copy };
            Ok(Some(copy_of(node, to, id, keys.as_slice())?))
        }
    }
}
