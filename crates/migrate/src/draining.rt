//! The word that a slot is drained: the node that it comes from has no key of it left.
ghost use Rattle.std.specs.Prelude.{◌≡◌};
ghost use Rattle.migrate.specs.Draining.{after_drained, note_drained};

use key_slot::Slot;
use slot_state::{Move, MoveNo, SlotMoves};
use slot_table::{Epoch, NodeNo};

/// Notes that the slot is drained at that node, which had it in that epoch, if it comes from there under that number. It takes no memory.
pub fn on_drained(moves: &mut SlotMoves, slot: Slot, from: NodeNo, number: MoveNo, epoch: Epoch)
    ensures { moves.new ≡ after_drained moves.old slot from number epoch }
{
    if let Some(running) = moves.get_mut(slot) {
        note_drained(running, from, number, epoch);
    }
}

fn note_drained(running: &mut Move, from: NodeNo, number: MoveNo, epoch: Epoch)
    ensures { running.new ≡ note_drained from number epoch running.old }
{
    match running {
        Move::Comes {
            from: source,
            number: own,
            drained,
            ..
        } if *source == from && *own == number => *drained = Some(epoch),
        _ => {}
    }
}
