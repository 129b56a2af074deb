//! Acknowledgements of copies.
ghost use Rattle.std.specs.Prelude.{◌≡◌, IfNone, IfSome, Some};
ghost use Rattle.std.specs.Option.{option_copied};
ghost use Rattle.slot_state.specs.Moves.{move_of};
ghost use Rattle.migrate.specs.Acknowledging.{acknowledged_keys, after_ack, frozen_keys, unfrozen};

use key_slot::Slot;
use slot_state::{Keys, Move, MoveNo, SlotMoves};
use slot_table::NodeNo;

/// The keys of the copy with that number, which that node acknowledges under that number of the move, if this copy is outstanding.
pub fn acknowledged_keys<'m>(
    running: Option<&'m Move>,
    from: NodeNo,
    number: MoveNo,
    copy: u64,
) -> Option<&'m Keys>
    ensures { option_copied result ≡ acknowledged_keys (option_copied running.entry) from number copy }
{
    match running {
        Some(
            Move::Leaves {
                to,
                number: own,
                copies,
                frozen,
            },
        ) if *to == from && *own == number && *copies == copy => frozen.as_ref(),
        _ => None,
    }
}

/// Takes an acknowledgement, and hands out the keys whose copy it is, if that copy is outstanding. It takes no memory.
///
/// The keys are not frozen any more. To delete them is left to the caller.
#[tactic(auto, using(crate::proofs::Verdicts::acknowledged_is_frozen))]
pub fn on_ack(
    moves: &mut SlotMoves,
    slot: Slot,
    from: NodeNo,
    number: MoveNo,
    copy: u64,
) -> Option<Keys>
    ensures keys { result ≡ acknowledged_keys (move_of moves.old slot) from number copy }
    ensures some { IfSome result (λ keys. moves.new ≡ after_ack moves.old slot) }
    ensures none { IfNone result (moves.new ≡ moves.old) }
{
    acknowledged_keys(moves.get(slot), from, number, copy)?;
    unfreeze(moves, slot)
}

/// Hands out the keys whose copy is outstanding, if there is one. They are not frozen any more. It takes no memory.
pub fn unfreeze(moves: &mut SlotMoves, slot: Slot) -> Option<Keys>
    ensures keys { result ≡ frozen_keys (move_of moves.old slot) }
    ensures moves { moves.new ≡ after_ack moves.old slot }
{
    take_frozen(moves.get_mut(slot)?)
}

fn take_frozen(running: &mut Move) -> Option<Keys>
    ensures keys { result ≡ frozen_keys (Some running.old) }
    ensures left { running.new ≡ unfrozen running.old }
{
    match running {
        Move::Leaves { frozen, .. } => frozen.take(),
        Move::Comes { .. } => None,
    }
}
