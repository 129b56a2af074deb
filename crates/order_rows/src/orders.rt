//! CLUSTER SETSLOT: moves of slots that begin and end.
ghost use Rattle.std.specs.Prelude.{◌≡◌, ◌<◌, ◌^◌, IfOk, OnOk, SomeIff, Err};
ghost use Rattle.node_parts.specs.Drafts.{Drafts, HasNothing, bodies_of};
ghost use Rattle.order_rows.specs.Orders.{Gives, Obeys, import_change, migrate_change, GivesBy, IsNewEpoch, NoEpoch, NoOrderNumber, claim_with, drained_by_order, drained_to, import_on, import_verdict_on, migrate_verdict_on, migration_on};
ghost use Rattle.step_fault.specs.declared.fault.StepFault.TheVariants.{Exhausted};
ghost use Rattle.node_step.specs.Orders.{ending_reply, ending_verdict, import_reply, migrate_reply, new_epoch};

use bus::{Body, SlotsBody};
use command_table::{ErrorLine, SlotOrder};
use connections::Conn;
use key_slot::Slot;
use node_parts::{Change, Draft, NodeParts, done, listed};
use node_step::{StepFault, Why};
use repl_stream::Stream;
use resp_values::Reply;
use slot_state::{ImportVerdict, MigrateVerdict, MoveNo, NodeVerdict, Order, epoch_after_import};
use slot_store::SlotParts;
use slot_table::{Claim, Epoch, NodeNo, SlotEntry};
use std::alloc::AllocError;

/// Begins or ends a move of a slot, as the order says.
#[tactic(auto, using(crate::proofs::Obeying::importing_obeys, crate::proofs::Obeying::migrating_obeys, crate::proofs::Obeying::giving_obeys))]
pub fn obey<S: SlotParts, T: Stream>(
    node: &NodeParts<S, T>,
    conn: Conn,
    order: SlotOrder,
    named: Order,
    draft: &mut Draft,
) -> Result<(), StepFault>
    requires { HasNothing node.now draft.old }
    ensures obeys { OnOk result
        (Obeys node.now conn named.slot order named.node named.number draft.new) }
    ensures exhausted { result ≡ Err Exhausted → NoOrderNumber node.now order named }
{
    match order {
        SlotOrder::Importing => {
            import(node, conn, named, draft);
            Ok(())
        }
        SlotOrder::Migrating => Ok(migrate_slot(node, conn, named, draft)?),
        SlotOrder::Node => give_slot(node, conn, named, draft),
    }
}

// Begins to import the slot, if nothing stands against it.
fn import<S: SlotParts, T: Stream>(
    node: &NodeParts<S, T>,
    conn: Conn,
    order: Order,
    draft: &mut Draft,
)
    requires { HasNothing node.now draft.old }
    ensures { Drafts node.now (import_on node.now conn order) draft.new }
{
    let verdict = import_verdict(node, &order);
    let reply = import_reply(&verdict);
    let change = import_change(conn, order.slot, &verdict);
    node.draft_reply(draft, Why::Imports(verdict), reply, change);
}

// The verdict on an order to import a slot.
fn import_verdict<S: SlotParts, T: Stream>(node: &NodeParts<S, T>, order: &Order) -> ImportVerdict
    ensures { result ≡ import_verdict_on node.now order.now }
{
    let at = node.standing(order.slot);
    node.moves.import_verdict(at, *order)
}

// Begins to migrate the slot, if nothing stands against it.
fn migrate_slot<S: SlotParts, T: Stream>(
    node: &NodeParts<S, T>,
    conn: Conn,
    order: Order,
    draft: &mut Draft,
) -> Result<(), AllocError>
    requires { HasNothing node.now draft.old }
    ensures { OnOk result (Drafts node.now (migration_on node.now conn order) draft.new) }
{
    let verdict = migrate_verdict(node, &order);
    let reply = migrate_reply(&verdict);
    let drained = drained_at_start(node, order.slot, &verdict);
    let bodies = listed(node.alloc, drained)?;
    let change = migrate_change(conn, order.slot, &verdict);
    let why = Why::Migrates(verdict);
    node.draft_reply_sending(draft, why, reply, bodies, change);
    Ok(())
}

// The verdict on an order to migrate a slot.
fn migrate_verdict<S: SlotParts, T: Stream>(node: &NodeParts<S, T>, order: &Order) -> MigrateVerdict
    ensures { result ≡ migrate_verdict_on node.now order.now }
{
    let at = node.standing(order.slot);
    node.moves.migrate_verdict(at, *order)
}

// A slot without keys is drained as soon as it begins to leave.
fn drained_at_start<S: SlotParts, T: Stream>(
    node: &NodeParts<S, T>,
    slot: Slot,
    verdict: &MigrateVerdict,
) -> Option<(NodeNo, Body)>
    ensures { bodies_of result ≡ drained_by_order node.now slot verdict.now }
{
    match *verdict {
        MigrateVerdict::Begins { to, number } => drained_for(node, slot, to, number),
        MigrateVerdict::UnknownNode
        | MigrateVerdict::Already
        | MigrateVerdict::HandingOver
        | MigrateVerdict::Busy
        | MigrateVerdict::NotOwner
        | MigrateVerdict::OldMove => None,
    }
}

// The word that none of the slot's keys is left, if that is so.
fn drained_for<S: SlotParts, T: Stream>(
    node: &NodeParts<S, T>,
    slot: Slot,
    to: NodeNo,
    number: MoveNo,
) -> Option<(NodeNo, Body)>
    ensures { bodies_of result ≡ drained_to node.now slot to number }
{
    if node.store.count_in_slot(slot) > 0 {
        return None;
    }
    let epoch = node.slot_epoch(slot);
    Some((
        to,
        Body::Slots(SlotsBody::Drained {
            slot,
            number,
            epoch,
        }),
    ))
}

// Gives the slot to a node: an import ends, if it is drained.
fn give_slot<S: SlotParts, T: Stream>(
    node: &NodeParts<S, T>,
    conn: Conn,
    order: Order,
    draft: &mut Draft,
) -> Result<(), StepFault>
    requires { HasNothing node.now draft.old }
    ensures gives { OnOk result (GivesBy node.now conn order draft.new) }
    ensures exhausted { result ≡ Err Exhausted → NoEpoch node.now order }
{
    let slot = order.slot;
    let verdict = node_verdict(node, order);
    match verdict {
        NodeVerdict::Ends { drained } => {
            let Some(epoch) = next_epoch(node, slot, drained) else {
                return Err(StepFault::Exhausted);
            };
            Ok(end_of_import(node, conn, slot, drained, epoch, draft)?)
        }
        NodeVerdict::UnknownNode
        | NodeVerdict::OldMove
        | NodeVerdict::NotDrained
        | NodeVerdict::IsOwner
        | NodeVerdict::NotYetOwner => {
            let reply = ending_reply(verdict);
            node.tell(draft, conn, Why::Ends(verdict), reply);
            Ok(())
        }
    }
}

// The verdict on an order that gives a slot to a node.
fn node_verdict<S: SlotParts, T: Stream>(node: &NodeParts<S, T>, order: Order) -> NodeVerdict
    ensures { result ≡ ending_verdict node.now order.slot order.node order.number }
{
    let at = node.standing(order.slot);
    node.moves.node_verdict(at, order)
}

// The epoch of a slot that came: above all that the node knows of.
fn next_epoch<S: SlotParts, T: Stream>(
    node: &NodeParts<S, T>,
    slot: Slot,
    drained: Epoch,
) -> Option<Epoch>
    ensures { SomeIff result (new_epoch node.now slot drained < 2 ^ 64)
        (new_epoch node.now slot drained) }
{
    epoch_after_import(node.election.current_epoch, drained, node.slot_epoch(slot))
}

// The slot is the node's own in the new epoch, and claimed.
fn end_of_import<S: SlotParts, T: Stream>(
    node: &NodeParts<S, T>,
    conn: Conn,
    slot: Slot,
    drained: Epoch,
    epoch: Epoch,
    draft: &mut Draft,
) -> Result<(), AllocError>
    requires epoch { IsNewEpoch node.now slot drained epoch }
    requires nothing { HasNothing node.now draft.old }
    ensures { OnOk result (Gives node.now conn slot (NodeVerdict.Ends drained) draft.new) }
{
    let claim = claim_with(node, slot, epoch)?;
    let claim = Body::Slots(SlotsBody::Claim(claim, node.election.replaced));
    let mut bodies = Vec::new(node.alloc);
    node.append_to_others(&claim, &mut bodies)?;
    let why = Why::Ends(NodeVerdict::Ends { drained });
    let change = Change::Ends { conn, slot, epoch };
    node.draft_reply_in(draft, why, done(), bodies, epoch, change);
    Ok(())
}

// The claim of the node once the slot is its own in that epoch.
fn claim_with<S: SlotParts, T: Stream>(
    node: &NodeParts<S, T>,
    slot: Slot,
    epoch: Epoch,
) -> Result<Claim, AllocError>
    ensures { IfOk result (λ claim. claim ≡ claim_with node.now slot epoch) }
{
    let owner = node.number;
    node.table
        .claim_with(node.alloc, slot, SlotEntry { epoch, owner })
}

// What an order to import a slot changes.
fn import_change(conn: Conn, slot: Slot, verdict: &ImportVerdict) -> Change
    ensures { result ≡ import_change conn slot verdict.now }
{
    match *verdict {
        ImportVerdict::Begins { from, number } => Change::Imports {
            conn,
            slot,
            from,
            number,
        },
        ImportVerdict::UnknownNode
        | ImportVerdict::Already
        | ImportVerdict::HandingOver
        | ImportVerdict::Busy
        | ImportVerdict::AlreadyOwner
        | ImportVerdict::NotOwner
        | ImportVerdict::OldMove => Change::Asks { conn },
    }
}

// What an order to migrate a slot changes.
fn migrate_change(conn: Conn, slot: Slot, verdict: &MigrateVerdict) -> Change
    ensures { result ≡ migrate_change conn slot verdict.now }
{
    match *verdict {
        MigrateVerdict::Begins { to, number } => Change::Migrates {
            conn,
            slot,
            to,
            number,
        },
        MigrateVerdict::UnknownNode
        | MigrateVerdict::Already
        | MigrateVerdict::HandingOver
        | MigrateVerdict::Busy
        | MigrateVerdict::NotOwner
        | MigrateVerdict::OldMove => Change::Asks { conn },
    }
}

fn import_reply(verdict: &ImportVerdict) -> Reply
    ensures { result ≡ import_reply verdict.now }
{
    match verdict {
        ImportVerdict::UnknownNode => ErrorLine::UnknownNode.reply(),
        ImportVerdict::Already | ImportVerdict::Begins { .. } => done(),
        ImportVerdict::HandingOver => ErrorLine::NodePaused.reply(),
        ImportVerdict::Busy => ErrorLine::SlotBusy.reply(),
        ImportVerdict::AlreadyOwner => ErrorLine::AlreadyOwner.reply(),
        ImportVerdict::NotOwner => ErrorLine::NotOwner.reply(),
        ImportVerdict::OldMove => ErrorLine::OldMove.reply(),
    }
}

fn migrate_reply(verdict: &MigrateVerdict) -> Reply
    ensures { result ≡ migrate_reply verdict.now }
{
    match verdict {
        MigrateVerdict::UnknownNode => ErrorLine::UnknownNode.reply(),
        MigrateVerdict::Already | MigrateVerdict::Begins { .. } => done(),
        MigrateVerdict::HandingOver => ErrorLine::NodePaused.reply(),
        MigrateVerdict::Busy => ErrorLine::SlotBusy.reply(),
        MigrateVerdict::NotOwner => ErrorLine::NotOwner.reply(),
        MigrateVerdict::OldMove => ErrorLine::OldMove.reply(),
    }
}

fn ending_reply(verdict: NodeVerdict) -> Reply
    ensures { result ≡ ending_reply verdict }
{
    match verdict {
        NodeVerdict::UnknownNode => ErrorLine::UnknownNode.reply(),
        NodeVerdict::OldMove => ErrorLine::OldMove.reply(),
        NodeVerdict::NotDrained => ErrorLine::NotDrained.reply(),
        NodeVerdict::Ends { .. } | NodeVerdict::IsOwner => done(),
        NodeVerdict::NotYetOwner => ErrorLine::TableNotUpdated.reply(),
    }
}
