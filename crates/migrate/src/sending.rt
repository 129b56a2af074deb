//! What becomes of an order to copy keys to the node that their slot goes to.
ghost use Rattle.std.specs.Prelude.{◌≡◌};
ghost use Rattle.std.specs.List.{list_all};
ghost use Rattle.std.specs.Option.{option_copied};
ghost use Rattle.slot_state.specs.Moves.{move_of};
ghost use Rattle.migrate.specs.Sending.{copy_verdict, after_copy_order, are_just, beside_copy, frozen, is_among, next_copy, with_frozen};

use byte_string::ByteString;
use key_slot::Slot;
use slot_state::{Keys, Move, MoveNo, SlotMoves};
use slot_table::NodeNo;

/// What becomes of an order to copy keys. All but `Copies` change nothing.
#[derive(Clone, Copy, PartialEq, Eq, Debug)]
pub enum CopyVerdict {
    /// The keys are in more than one slot.
    CrossSlot,
    /// The slot of the keys does not leave to that node.
    WrongTarget,
    /// None of the keys is there.
    NoKey,
    /// The copy of other keys of the slot is not acknowledged yet.
    CopyOutstanding,
    /// The move has made so many copies that no number is left.
    Exhausted,
    /// The copy of just these keys is not acknowledged yet, and is sent again.
    SendAgain {
        /// The node that the slot goes to.
        to: NodeNo,
        /// The number of the move.
        number: MoveNo,
        /// The number of the copy, which it had before.
        copy: u64,
    },
    /// The keys are frozen, and their copy is sent.
    Copies {
        /// The node that the slot goes to.
        to: NodeNo,
        /// The number of the move.
        number: MoveNo,
        /// The number of the copy, one above the last one of the move.
        copy: u64,
    },
}

/// The verdict on an order to copy keys to the target, by the move of their slot that is under way.
///
/// The keys are those of the order that are there, each once. The target is `None` where no node has the address in the order.
pub fn copy_verdict(
    running: Option<&Move>,
    target: Option<NodeNo>,
    keys: &[ByteString],
) -> CopyVerdict
    ensures { result ≡ copy_verdict (option_copied running.entry) target keys.now }
{
    let Some(
        Move::Leaves {
            to,
            number,
            copies,
            frozen,
        },
    ) = running
    else {
        return CopyVerdict::WrongTarget;
    };
    if target != Some(*to) {
        return CopyVerdict::WrongTarget;
    }
    if keys.is_empty() {
        return CopyVerdict::NoKey;
    }
    match frozen {
        None => next_copy(*to, *number, *copies),
        Some(frozen) => beside_copy(*to, *number, *copies, frozen.as_slice(), keys),
    }
}

// The verdict where no copy is outstanding.
fn next_copy(to: NodeNo, number: MoveNo, copies: u64) -> CopyVerdict
    ensures { result ≡ next_copy to number copies }
{
    if copies == u64::MAX {
        return CopyVerdict::Exhausted;
    }
    CopyVerdict::Copies {
        to,
        number,
        copy: copies + 1,
    }
}

// The verdict where the last copy is outstanding, which is that of the frozen keys.
fn beside_copy(
    to: NodeNo,
    number: MoveNo,
    copies: u64,
    frozen: &[ByteString],
    keys: &[ByteString],
) -> CopyVerdict
    ensures { result ≡ beside_copy to number copies frozen.now keys.now }
{
    if !are_just(frozen, keys) {
        return CopyVerdict::CopyOutstanding;
    }
    CopyVerdict::SendAgain {
        to,
        number,
        copy: copies,
    }
}

// Whether the keys are just those, in any order.
fn are_just(frozen: &[ByteString], keys: &[ByteString]) -> bool
    ensures { result ≡ are_just frozen.now keys.now }
{
    frozen.len() == keys.len() && are_among(frozen, keys)
}

fn are_among(frozen: &[ByteString], keys: &[ByteString]) -> bool
    ensures { result ≡ list_all (is_among frozen.now) keys.now }
{
    keys.iter().all(|key| is_among(frozen, key.as_slice()))
}

fn is_among(keys: &[ByteString], key: &[u8]) -> bool
    ensures { result ≡ is_among keys.now key.now }
{
    keys.iter().any(|other| other.as_slice() == key)
}

/// Obeys an order to copy the keys to the target, if nothing stands against it. It takes no memory.
///
/// Keys that are copied are frozen until their copy is acknowledged. To send the copy is left to the caller.
#[tactic(auto, using(crate::proofs::Verdicts::copies_freeze))]
pub fn begin(moves: &mut SlotMoves, slot: Slot, target: Option<NodeNo>, keys: Keys) -> CopyVerdict
    ensures verdict { result ≡ copy_verdict (move_of moves.old slot) target keys }
    ensures moves { moves.new ≡ after_copy_order moves.old slot keys result }
{
    let verdict = copy_verdict(moves.get(slot), target, keys.as_slice());
    if let CopyVerdict::Copies { copy, .. } = verdict {
        freeze(moves, slot, copy, keys);
    }
    verdict
}

/// Freezes the keys, whose copy has that number, if the slot leaves this node. It takes no memory.
pub fn freeze(moves: &mut SlotMoves, slot: Slot, copy: u64, keys: Keys)
    ensures { moves.new ≡ frozen moves.old slot copy keys }
{
    if let Some(running) = moves.get_mut(slot) {
        put_frozen(running, copy, keys);
    }
}

fn put_frozen(running: &mut Move, copy: u64, keys: Keys)
    ensures { running.new ≡ with_frozen copy keys running.old }
{
    if let Move::Leaves { copies, frozen, .. } = running {
        *copies = copy;
        *frozen = Some(keys);
    }
}
