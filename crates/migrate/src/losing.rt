//! Slots that another node's greater claim takes from this one.
ghost use Rattle.std.specs.Prelude.{◌≡◌, ◌==◌};
ghost use Rattle.std.specs.List.{list_any};
ghost use Rattle.std.specs.Option.{option_copied};
ghost use Rattle.migrate.specs.Losing.{after_loss, is_leaving};

use key_slot::Slot;
use slot_state::{Move, SlotMoves};

/// Ends the moves in which the lost slots leave; a slot that comes stays on its way. It takes no memory.
pub fn on_lost(moves: &mut SlotMoves, lost: &[Slot])
    ensures { moves.new ≡ after_loss moves.old (λ slot. list_any (λ other. other == slot) lost.now) }
{
    for slot in lost {
        lose(moves, *slot);
    }
}

fn lose(moves: &mut SlotMoves, slot: Slot)
    ensures { moves.new ≡ after_loss moves.old (λ other. slot == other) }
{
    if is_leaving(moves.get(slot)) {
        moves.end(slot);
    }
}

fn is_leaving(running: Option<&Move>) -> bool
    ensures { result ≡ is_leaving (option_copied running.entry) }
{
    match running {
        Some(Move::Leaves { .. }) => true,
        _ => false,
    }
}
