//! A replica notes what its master hands over.
ghost use Rattle.std.specs.Prelude.{◌≡◌, ◌&&◌, OnOk};
ghost use Rattle.bus.specs.Stream.{is_same};
ghost use Rattle.node_parts.specs.Drafts.{Drafts, HasNothing};
ghost use Rattle.node_step.specs.Handovers.{told_of_handing};
ghost use Rattle.node_step.specs.State.{is_replica};

use bus::Handing;
use node_parts::{Change, Draft, NodeParts};
use repl_stream::Stream;
use slot_store::SlotParts;
use std::alloc::AllocError;

/// Notes what a master hands over, if the node is a replica that follows just that stream.
pub fn note_handing<S: SlotParts, T: Stream>(
    node: &NodeParts<S, T>,
    handing: &Handing,
    draft: &mut Draft,
) -> Result<(), AllocError>
    requires { HasNothing node.now draft.old }
    ensures { OnOk result (Drafts node.now (told_of_handing node.now handing.now) draft.new) }
{
    if !concerns(node, handing) {
        node.draft_change(draft, Change::Nothing);
        return Ok(());
    }
    let handing = Some(handing.clone()?);
    node.draft_change(draft, Change::Learns { handing });
    Ok(())
}

// Whether the node is a replica that follows just that stream.
fn concerns<S: SlotParts, T: Stream>(node: &NodeParts<S, T>, handing: &Handing) -> bool
    ensures { result ≡ (is_replica node.now && is_same handing.now.stream node.now.stream.held.id) }
{
    node.is_replica() && handing.stream == node.stream.id()
}
