//! What becomes of an order that gives a slot to a node.
ghost use Rattle.std.specs.Prelude.{◌≡◌, ◌+◌, ◌<◌, ◌^◌, SomeIff, max};
ghost use Rattle.std.specs.Option.{option_copied};
ghost use Rattle.slot_state.specs.Ending.{node_verdict, by_owner};

use crate::numbering::is_named;
use crate::order::{Order, Standing};
use crate::running::Move;
use slot_table::{Epoch, NodeNo};

/// What becomes of CLUSTER SETSLOT slot NODE node. All but `Ends` change nothing.
#[derive(Clone, Copy, PartialEq, Eq, Debug)]
pub enum NodeVerdict {
    /// There is no such node.
    UnknownNode,
    /// This node imports the slot under another number.
    OldMove,
    /// The other node may still have keys of the slot.
    NotDrained,
    /// The import ends, and the slot becomes this node's own.
    Ends {
        /// The epoch of the slot at the node that it came from.
        drained: Epoch,
    },
    /// The table has that node for the owner already.
    IsOwner,
    /// The table does not have that node for the owner yet.
    NotYetOwner,
}

// The verdict on an order, by the move of the slot that is under way.
pub(crate) fn node_verdict(at: Standing, running: Option<&Move>, order: Order) -> NodeVerdict
    ensures { result ≡ node_verdict at (option_copied running.entry) order.node order.number }
{
    let Some(node) = order.node else {
        return NodeVerdict::UnknownNode;
    };
    match running {
        Some(
            Move::Comes {
                number,
                drained,
                ..
            },
        ) if node == at.node => {
            if !is_named(*number, order.number) {
                return NodeVerdict::OldMove;
            }
            match drained {
                None => NodeVerdict::NotDrained,
                Some(epoch) => NodeVerdict::Ends { drained: *epoch },
            }
        }
        _ => by_owner(at.owner, node),
    }
}

// The verdict where no import is to end.
fn by_owner(owner: Option<NodeNo>, node: NodeNo) -> NodeVerdict
    ensures { result ≡ by_owner owner node }
{
    if owner == Some(node) {
        NodeVerdict::IsOwner
    } else {
        NodeVerdict::NotYetOwner
    }
}

/// The epoch in which a slot is the node's own once its import ends, or None where no number is left for it.
///
/// It is above the node's own epoch, above the one that the former owner said with its last word, and above the one in which
/// the node knows the slot: so the new owner's claim counts above each that was made before.
pub fn epoch_after_import(current: Epoch, drained: Epoch, known: Epoch) -> Option<Epoch>
    ensures { let next = 1 + max (max current drained) known in SomeIff result (next < 2 ^ 64) next }
{
    let greatest = current.max(drained).max(known);
    Some(Epoch::new(greatest.get().checked_add(1)?))
}
