//! What becomes of an order to migrate a slot.
ghost use Rattle.std.specs.Prelude.{◌≡◌};
ghost use Rattle.std.specs.Option.{option_copied};
ghost use Rattle.slot_state.specs.Migrating.{migrate_verdict, new_migration};

use crate::numbering::{is_named, new_number};
use crate::order::{Order, Standing};
use crate::running::Move;
use key_slot::MoveNo;
use slot_table::NodeNo;

/// What becomes of CLUSTER SETSLOT slot MIGRATING node. All but `Begins` change nothing.
#[derive(Clone, Copy, PartialEq, Eq, Debug)]
pub enum MigrateVerdict {
    /// There is no such node, or it is this one.
    UnknownNode,
    /// The slot already migrates to that node, under the number asked for.
    Already,
    /// This node hands its slots over to a replica.
    HandingOver,
    /// Another move of the slot is under way.
    Busy,
    /// The slot isn't this node's, or this node is a replica.
    NotOwner,
    /// The number isn't above those of earlier moves of the slot, or there is none left.
    OldMove,
    /// The migration begins.
    Begins {
        /// The node that the slot goes to.
        to: NodeNo,
        /// The number of the move.
        number: MoveNo,
    },
}

// The verdict on an order, by the move of the slot that is under way and the greatest number of one.
pub(crate) fn migrate_verdict(
    at: Standing,
    running: Option<&Move>,
    last: MoveNo,
    order: Order,
) -> MigrateVerdict
    ensures { result ≡ migrate_verdict at (option_copied running.entry) last order.node order.number }
{
    let Some(to) = order.node else {
        return MigrateVerdict::UnknownNode;
    };
    if to == at.node {
        return MigrateVerdict::UnknownNode;
    }
    if at.is_replica {
        return MigrateVerdict::NotOwner;
    }
    if at.is_paused {
        return MigrateVerdict::HandingOver;
    }
    match running {
        Some(
            Move::Leaves {
                to: target,
                number,
                ..
            },
        ) if *target == to && is_named(*number, order.number) => MigrateVerdict::Already,
        Some(_) => MigrateVerdict::Busy,
        None => new_migration(at, last, to, order.number),
    }
}

// The verdict where the slot has no move, by its owner.
fn new_migration(at: Standing, last: MoveNo, to: NodeNo, asked: Option<MoveNo>) -> MigrateVerdict
    ensures { result ≡ new_migration at.owner at.node last to asked }
{
    if at.owner != Some(at.node) {
        return MigrateVerdict::NotOwner;
    }
    match new_number(last, asked) {
        None => MigrateVerdict::OldMove,
        Some(number) => MigrateVerdict::Begins { to, number },
    }
}
