//! A replica takes the place of its master.
ghost use Rattle.std.specs.Prelude.{◌≡◌, IfOk, OnOk, Some, length, map};
ghost use Rattle.node_parts.specs.Drafts.{HasNothing, Promotes};
ghost use Rattle.node_parts.specs.Succession.{replacement, planned_promotion, promotion_of};
ghost use Rattle.node_parts.specs.Telling.{claims_by};
ghost use Rattle.node_step.specs.Promotion.{entry_after, promotion, table_handed, table_of_master};
ghost use Rattle.slot_table.specs.Claims.{is_above};

use bus::{Body, Replaced, SlotsBody, StreamId};
use key_slot::Slot;
use node_parts::{Draft, NodeParts, Succession};
use repl_stream::Stream;
use slot_store::SlotParts;
use slot_table::{Claim, Epoch, NodeNo, SlotEntry, SlotTable};
use std::alloc::AllocError;

/// Promotes the node in the place of its master, by an election of that epoch: all slots that it knows for the master's are its own.
pub fn promote<S: SlotParts, T: Stream>(
    node: &NodeParts<S, T>,
    master: NodeNo,
    epoch: Epoch,
    draft: &mut Draft,
) -> Result<(), AllocError>
    requires { HasNothing node.now draft.old }
    ensures { OnOk result (Promotes node.now (promotion node.now epoch (Some master)) draft.new) }
{
    let succession = Succession {
        table: table_of_master(node, master, epoch)?,
        master,
        epoch,
        planned: false,
    };
    promote_by(node, succession, draft)
}

/// Promotes the node in the place of its master, by an election of that epoch for which the master hands over: these slots are its
/// own.
pub fn promote_by_plan<S: SlotParts, T: Stream>(
    node: &NodeParts<S, T>,
    master: NodeNo,
    epoch: Epoch,
    slots: &Claim,
    draft: &mut Draft,
) -> Result<(), AllocError>
    requires { HasNothing node.now draft.old }
    ensures { OnOk result (Promotes node.now
        (planned_promotion node.now master epoch slots.now) draft.new) }
{
    let succession = Succession {
        table: table_handed(node, slots, epoch)?,
        master,
        epoch,
        planned: true,
    };
    promote_by(node, succession, draft)
}

// All other nodes get the node's claim.
fn promote_by<S: SlotParts, T: Stream>(
    node: &NodeParts<S, T>,
    succession: Succession,
    draft: &mut Draft,
) -> Result<(), AllocError>
    requires { HasNothing node.now draft.old }
    ensures { OnOk result (Promotes node.now (promotion_of node.now succession) draft.new) }
{
    let replaced = replaced(node, succession.master, succession.epoch);
    let bodies = claims(node, &succession.table, replaced)?;
    node.draft_promotion(draft, bodies, succession);
    Ok(())
}

// The claim to the node's slots in that table for each other node.
fn claims<S: SlotParts, T: Stream>(
    node: &NodeParts<S, T>,
    table: &SlotTable,
    replaced: Replaced,
) -> Result<Vec<(NodeNo, Body)>, AllocError>
    ensures { IfOk result (λ bodies. bodies.items ≡ claims_by node.now table.now replaced) }
{
    let claim = table.claim_of(node.alloc, node.number)?;
    let claim = Body::Slots(SlotsBody::Claim(claim, Some(replaced)));
    let mut bodies = Vec::new(node.alloc);
    node.append_to_others(&claim, &mut bodies)?;
    Ok(bodies)
}

// Whose place the node takes, and where its stream begins.
fn replaced<S: SlotParts, T: Stream>(
    node: &NodeParts<S, T>,
    master: NodeNo,
    epoch: Epoch,
) -> Replaced
    ensures { result ≡ replacement node.now master epoch }
{
    let stream = StreamId {
        node: node.number,
        epoch,
    };
    Replaced {
        master,
        stream,
        offset: node.stream.offset(),
    }
}

// The slots of the master are the node's own, each in the epoch of its election.
fn table_of_master<S: SlotParts, T: Stream>(
    node: &NodeParts<S, T>,
    master: NodeNo,
    epoch: Epoch,
) -> Result<SlotTable, AllocError>
    ensures { IfOk result (λ table. table ≡ table_of_master node.now master epoch) }
{
    let owner = node.number;
    let mut table = node.table.clone()?;
    claim_all(&mut table, master, &SlotEntry { epoch, owner });
    Ok(table)
}

// So are these slots, whatever the node knows of their owners.
fn table_handed<S: SlotParts, T: Stream>(
    node: &NodeParts<S, T>,
    slots: &Claim,
    epoch: Epoch,
) -> Result<SlotTable, AllocError>
    ensures { IfOk result (λ table. table ≡ table_handed node.now slots.now epoch) }
{
    let claim = slots.in_epoch(node.alloc, epoch)?;
    let mut table = node.table.clone()?;
    table.take(node.number, &claim);
    Ok(table)
}

// Each slot of the master gets the claim, if that counts above what was there.
fn claim_all(table: &mut SlotTable, master: NodeNo, claim: &SlotEntry)
    requires { length table.old ≡ 16384 }
    ensures { table.new ≡ map (entry_after master claim.now) table.old }
{
    for place in 0..Slot::COUNT {
        let slot = Slot::new(place as u16).unwrap();
        let entry = entry_after(master, claim, table.entry(slot));
        table.set(slot, entry);
    }
}

// What a slot has then.
fn entry_after(master: NodeNo, claim: &SlotEntry, entry: Option<SlotEntry>) -> Option<SlotEntry>
    ensures { result ≡ entry_after master claim.now entry }
{
    let known = entry?;
    if known.owner == master && is_above(claim, &known) {
        return Some(*claim);
    }
    Some(known)
}

// Whether the claim to a slot counts above what is known of it.
fn is_above(claim: &SlotEntry, known: &SlotEntry) -> bool
    ensures { result ≡ is_above claim.now (Some known.now) }
{
    known.epoch < claim.epoch || known.epoch == claim.epoch && known.owner < claim.owner
}
