//! What becomes of an order to import a slot.
ghost use Rattle.std.specs.Prelude.{◌≡◌};
ghost use Rattle.std.specs.Option.{option_copied};
ghost use Rattle.slot_state.specs.Importing.{import_verdict, new_import};

use crate::numbering::{is_named, new_number};
use crate::order::{Order, Standing};
use crate::running::Move;
use key_slot::MoveNo;
use slot_table::NodeNo;

/// What becomes of CLUSTER SETSLOT slot IMPORTING node. All but `Begins` change nothing.
#[derive(Clone, Copy, PartialEq, Eq, Debug)]
pub enum ImportVerdict {
    /// There is no such node, or it is this one.
    UnknownNode,
    /// The slot is already imported from that node, under the number asked for.
    Already,
    /// This node hands its slots over to a replica.
    HandingOver,
    /// Another move of the slot is under way.
    Busy,
    /// The slot is this node's own.
    AlreadyOwner,
    /// The slot isn't that node's, or this node is a replica.
    NotOwner,
    /// The number isn't above those of earlier moves of the slot, or there is none left.
    OldMove,
    /// The import begins.
    Begins {
        /// The node that the slot comes from.
        from: NodeNo,
        /// The number of the move.
        number: MoveNo,
    },
}

// The verdict on an order, by the move of the slot that is under way and the greatest number of one.
pub(crate) fn import_verdict(
    at: Standing,
    running: Option<&Move>,
    last: MoveNo,
    order: Order,
) -> ImportVerdict
    ensures { result ≡ import_verdict at (option_copied running.entry) last order.node order.number }
{
    let Some(from) = order.node else {
        return ImportVerdict::UnknownNode;
    };
    if from == at.node {
        return ImportVerdict::UnknownNode;
    }
    if at.is_replica {
        return ImportVerdict::NotOwner;
    }
    if at.is_paused {
        return ImportVerdict::HandingOver;
    }
    match running {
        Some(
            Move::Comes {
                from: source,
                number,
                ..
            },
        ) if *source == from && is_named(*number, order.number) => ImportVerdict::Already,
        Some(_) => ImportVerdict::Busy,
        None => new_import(at, last, from, order.number),
    }
}

// The verdict where the slot has no move, by its owner.
fn new_import(at: Standing, last: MoveNo, from: NodeNo, asked: Option<MoveNo>) -> ImportVerdict
    ensures { result ≡ new_import at.owner at.node last from asked }
{
    if at.owner == Some(at.node) {
        return ImportVerdict::AlreadyOwner;
    }
    if at.owner != Some(from) {
        return ImportVerdict::NotOwner;
    }
    match new_number(last, asked) {
        None => ImportVerdict::OldMove,
        Some(number) => ImportVerdict::Begins { from, number },
    }
}
