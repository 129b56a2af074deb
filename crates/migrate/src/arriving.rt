//! What becomes of a copy that arrives.
ghost use Rattle.std.specs.Prelude.{◌≡◌};
ghost use Rattle.std.specs.Option.{option_copied};
ghost use Rattle.slot_state.specs.Moves.{move_of};
ghost use Rattle.migrate.specs.Arriving.{arrival_verdict, after_arrival, by_number, counted, with_last};

use key_slot::Slot;
use slot_state::{Move, MoveNo, SlotMoves};
use slot_table::NodeNo;

/// What becomes of a copy that arrives. All but `Installs` change nothing.
#[derive(Clone, Copy, PartialEq, Eq, Debug)]
pub enum ArrivalVerdict {
    /// It is ignored: it is of another move, keeps no limits, or comes before an earlier copy.
    Ignored,
    /// Its key and value are installed, and it is acknowledged.
    Installs,
    /// It was installed before, and is acknowledged again.
    Repeats,
}

/// The verdict on a copy with that number, sent by that node under that number of the move.
///
/// It goes by the move of the slot that is under way, and by whether the key and value of the copy keep the limits.
pub fn arrival_verdict(
    running: Option<&Move>,
    from: NodeNo,
    number: MoveNo,
    copy: u64,
    fits: bool,
) -> ArrivalVerdict
    ensures { result ≡ arrival_verdict (option_copied running.entry) from number copy fits }
{
    match running {
        Some(
            Move::Comes {
                from: source,
                number: own,
                last,
                ..
            },
        ) if *source == from && *own == number && fits => by_number(*last, copy),
        _ => ArrivalVerdict::Ignored,
    }
}

// The verdict by the number of the copy and that of the last one that was installed.
fn by_number(last: u64, copy: u64) -> ArrivalVerdict
    ensures { result ≡ by_number last copy }
{
    if copy <= last {
        return ArrivalVerdict::Repeats;
    }
    if copy - last == 1 {
        return ArrivalVerdict::Installs;
    }
    ArrivalVerdict::Ignored
}

/// Counts a copy that arrives, if it is to be installed. It takes no memory.
///
/// To install its key and to acknowledge it is left to the caller.
#[tactic(auto, using(crate::proofs::Verdicts::installs_count))]
pub fn on_copy(
    moves: &mut SlotMoves,
    slot: Slot,
    from: NodeNo,
    number: MoveNo,
    copy: u64,
    fits: bool,
) -> ArrivalVerdict
    ensures verdict { result ≡ arrival_verdict (move_of moves.old slot) from number copy fits }
    ensures moves { moves.new ≡ after_arrival moves.old slot result }
{
    let verdict = arrival_verdict(moves.get(slot), from, number, copy, fits);
    if verdict == ArrivalVerdict::Installs {
        count_copy(moves, slot, copy);
    }
    verdict
}

/// Notes that the copy with that number is the last one that was installed of the slot, if the slot comes to this node.
/// It takes no memory.
pub fn count_copy(moves: &mut SlotMoves, slot: Slot, copy: u64)
    ensures { moves.new ≡ counted moves.old slot copy }
{
    if let Some(running) = moves.get_mut(slot) {
        put_last(running, copy);
    }
}

fn put_last(running: &mut Move, copy: u64)
    ensures { running.new ≡ with_last copy running.old }
{
    if let Move::Comes { last, .. } = running {
        *last = copy;
    }
}
