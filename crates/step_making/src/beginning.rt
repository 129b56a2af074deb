//! What of a change takes memory, which is done first.
ghost use Rattle.std.specs.Prelude.{◌≡◌, OnOk, OnErr};
ghost use Rattle.node_parts.specs.Begins.{Begins, CanBegin};

use keyspace::{Plan, commit};
use node_parts::Change;
use slot_state::SlotMoves;
use slot_store::SlotParts;
use std::alloc::{AllocError, Global};
use std::mem;

/// Changes keys, or lets a move begin, if the change says so. The plan is taken out then.
pub(crate) fn begin<S: SlotParts>(
    alloc: Global,
    store: &mut S,
    moves: &mut SlotMoves,
    plan: &mut Plan,
    change: &Change,
) -> Result<(), AllocError>
    requires { CanBegin (S.contents store.old) moves.old plan.old change.now }
    ensures begun { OnOk result (Begins (S.contents store.old) moves.old plan.old change.now
        (S.contents store.new) moves.new) }
    ensures keys { OnErr result (S.contents store.new ≡ S.contents store.old) }
    ensures moves { OnErr result (moves.new ≡ moves.old) }
{
    match change {
        Change::Keys { slot, .. } => {
            let plan = mem::replace(plan, Plan::new(alloc));
            store.commit_in_slot(alloc, *slot, plan)
        }
        Change::Imports {
            slot,
            from,
            number,
            ..
        } => moves.begin_import(*slot, *from, *number),
        Change::Migrates {
            slot,
            to,
            number,
            ..
        } => moves.begin_migration(*slot, *to, *number),
        Change::Installs { .. } => {
            let plan = mem::replace(plan, Plan::new(alloc));
            commit(alloc, store, plan)
        }
        Change::Nothing
        | Change::Asks { .. }
        | Change::Allows { .. }
        | Change::Numbers { .. }
        | Change::Ends { .. }
        | Change::Parks { .. }
        | Change::Freezes { .. }
        | Change::Frees { .. }
        | Change::Notes { .. }
        | Change::Loses { .. }
        | Change::Wishes { .. }
        | Change::Pauses { .. }
        | Change::Learns { .. }
        | Change::Ages => Ok(()),
    }
}
