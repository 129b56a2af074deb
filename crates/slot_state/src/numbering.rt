//! The numbers of moves.
ghost use Rattle.std.specs.Prelude.{◌≡◌};
ghost use Rattle.slot_state.specs.Numbers.{new_number, is_named};

use key_slot::MoveNo;
use slot_table::NodeNo;

// The number of a new move of a slot, or `None` where there is none above the last one.
pub(crate) fn new_number(last: MoveNo, asked: Option<MoveNo>) -> Option<MoveNo>
    ensures { result ≡ new_number last asked }
{
    match asked {
        None => MoveNo::new(last.get() + 1),
        Some(number) if last < number => Some(number),
        Some(_) => None,
    }
}

// Whether an order with this number, or without one, names the move of that number.
pub(crate) fn is_named(number: MoveNo, asked: Option<MoveNo>) -> bool
    ensures { result ≡ is_named number asked }
{
    asked.is_none_or(|asked| asked == number)
}
