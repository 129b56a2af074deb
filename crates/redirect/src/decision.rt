//! The decision on a command, by its keys.
ghost use Rattle.std.specs.Prelude.{◌≡◌, ◌↔◌, ◌==◌, not};
ghost use Rattle.std.specs.List.{list_any};
ghost use Rattle.std.specs.Option.{option_copied};
ghost use Rattle.key_slot.specs.Slot.{hash_slot};
ghost use Rattle.redirect.specs.Asked.{Asked, asked, bytes_of};
ghost use Rattle.redirect.specs.Decision.{decision, in_moving_slot, is_served, at_owner, by_state, coming, leaving, owned};
ghost use Rattle.redirect.specs.Meaning.{AreInSlotUnlessCrossed, AreInTwoSlots, AreOwned, IsByAsking, IsByKeys, IsDecision, IsDecisionAtRest, IsSlotOf, NamesOwner};

use crate::asked::{Asking, are_all, are_several, is_any, is_frozen, is_right};
use key_slot::{Slot, slot};
use slot_state::{Keys, Move, MoveNo, SlotMoves, SlotState, Standing};
use slot_table::{NodeNo, SlotTable};

/// What a node does with a command.
#[derive(Clone, Copy, PartialEq, Eq, Debug)]
pub enum Decision {
    /// It executes the command.
    Serve,
    /// It executes the command in a slot that comes to it.
    ServeImport {
        /// The number of the move.
        number: MoveNo,
    },
    /// It refuses the command, whose keys are in more than one slot.
    CrossSlot,
    /// It refuses the command, since no node has the slot.
    Down,
    /// It refuses the command until the move has gone on.
    TryAgain(Reason),
    /// It names the node that the slot goes to, for this command alone.
    Ask {
        /// The slot of the keys.
        slot: Slot,
        /// The node that the slot goes to.
        to: NodeNo,
        /// The number of the move.
        number: MoveNo,
    },
    /// It names the node that has the slot.
    Moved {
        /// The slot of the keys.
        slot: Slot,
        /// The owner of the slot.
        to: NodeNo,
    },
}

impl Decision {
    /// Whether the command is executed.
    pub fn is_served(&self) -> bool
        ensures { result ≡ is_served self.now }
    {
        match self {
            Decision::Serve | Decision::ServeImport { .. } => true,
            Decision::CrossSlot
            | Decision::Down
            | Decision::TryAgain(_)
            | Decision::Ask { .. }
            | Decision::Moved { .. } => false,
        }
    }
}

/// Why a command is to be tried again.
#[derive(Clone, Copy, PartialEq, Eq, Debug)]
pub enum Reason {
    /// One of its keys is on its way to the other node.
    Frozen,
    /// Some of its keys are here, and others aren't.
    SomeAreMissing,
    /// The node hands its slots over.
    HandingOver,
}

/// The decision on a command with these keys, by whether the store has each of them. It takes no memory and always answers.
pub fn decide(
    table: &SlotTable,
    moves: &SlotMoves,
    node: NodeNo,
    is_paused: bool,
    keys: &[&[u8]],
    there: &[bool],
    asking: Asking,
) -> Decision
    ensures value { result ≡ decision table.now moves.now node (asked keys.now there.now asking is_paused) }
    ensures crossed { result ≡ Decision.CrossSlot ↔ AreInTwoSlots (bytes_of keys.now) }
    ensures served { result ≡ Decision.Serve → AreOwned table.now moves.now node (bytes_of keys.now) }
    ensures moved { NamesOwner table.now (bytes_of keys.now) result }
{
    let Some((first, _)) = keys.split_first() else {
        return Decision::Serve;
    };
    let slot = slot(first);
    // Whether it is a replica doesn't matter.
    let at = Standing {
        node,
        is_replica: false,
        is_paused,
        owner: table.owner(slot),
    };
    decide_in_slot(at, moves.get(slot), slot, keys, there, asking)
}

/// The decision on a command with these keys, the first of which is in the slot, by what the node knows of itself and of the slot, and
/// by the move of the slot, if one is under way. It does not hash the first key.
pub fn decide_in_slot(
    at: Standing,
    running: Option<&Move>,
    slot: Slot,
    keys: &[&[u8]],
    there: &[bool],
    asking: Asking,
) -> Decision
    ensures value { IsDecision at running.entry slot keys.now there.now asking result }
    ensures one_slot { IsSlotOf slot (bytes_of keys.now) → AreInSlotUnlessCrossed slot (bytes_of keys.now) result }
{
    let Some((_, others)) = keys.split_first() else {
        return Decision::Serve;
    };
    if has_other_slot(slot, others) {
        return Decision::CrossSlot;
    }
    in_one_slot(at, running, slot, keys, there, asking)
}

/// The decision on a command whose first key is in the slot, of which no move is under way, and which has these other keys.
///
/// Neither which keys are there nor the asking matters then. It does not hash the first key.
pub fn decide_at_rest(at: Standing, slot: Slot, others: &[&[u8]]) -> Decision
    ensures value { IsDecisionAtRest at slot (bytes_of others.now) result }
    ensures one_slot { AreInSlotUnlessCrossed slot (bytes_of others.now) result }
{
    if has_other_slot(slot, others) {
        return Decision::CrossSlot;
    }
    in_resting_slot(at, slot)
}

// Whether one of the keys isn't in the slot.
fn has_other_slot(slot: Slot, keys: &[&[u8]]) -> bool
    ensures { result ≡ list_any (λ key. not (hash_slot key.now == slot)) keys.now }
{
    keys.iter().any(|key| key_slot::slot(key) != slot)
}

// The decision on a command whose keys are all in the slot.
fn in_one_slot(
    at: Standing,
    running: Option<&Move>,
    slot: Slot,
    keys: &[&[u8]],
    there: &[bool],
    asking: Asking,
) -> Decision
    ensures { result ≡ by_state at running.entry slot (asked keys.now there.now asking at.is_paused) }
{
    match running {
        Some(running) => in_moving_slot(slot, at.owner, running, keys, there, asking),
        None => in_resting_slot(at, slot),
    }
}

// The decision in a slot without a move.
fn in_resting_slot(at: Standing, slot: Slot) -> Decision
    ensures { (asked : Asked) → asked.paused ≡ at.is_paused → result ≡ by_state at None slot asked }
{
    match at.owner {
        Some(owner) if owner == at.node => own(at.is_paused),
        owner => at_owner(slot, owner),
    }
}

// The decision in a slot of the node's own.
fn own(is_paused: bool) -> Decision
    ensures { (asked : Asked) → asked.paused ≡ is_paused → result ≡ owned asked }
{
    if is_paused {
        Decision::TryAgain(Reason::HandingOver)
    } else {
        Decision::Serve
    }
}

// The decision in a slot with a move.
fn in_moving_slot(
    slot: Slot,
    owner: Option<NodeNo>,
    running: &Move,
    keys: &[&[u8]],
    there: &[bool],
    asking: Asking,
) -> Decision
    ensures { IsByAsking (in_moving_slot slot owner running.now) keys.now there.now asking result }
{
    match running {
        Move::Comes { number, .. } if is_right(asking, *number) => coming(*number, keys, there),
        Move::Comes { .. } => at_owner(slot, owner),
        Move::Leaves {
            to,
            number,
            frozen,
            ..
        } => match owner {
            None => Decision::Down,
            Some(_) => {
                let elsewhere = Decision::Ask {
                    slot,
                    to: *to,
                    number: *number,
                };
                leaving(elsewhere, frozen.as_ref(), keys, there)
            }
        },
    }
}

// The decision in a slot that another node may have.
fn at_owner(slot: Slot, owner: Option<NodeNo>) -> Decision
    ensures { result ≡ at_owner slot owner }
{
    let Some(owner) = owner else {
        return Decision::Down;
    };
    Decision::Moved { slot, to: owner }
}

// The decision in a slot that comes to the node, after the right ASKING.
fn coming(number: MoveNo, keys: &[&[u8]], there: &[bool]) -> Decision
    ensures { IsByKeys (coming number) keys.now there.now result }
{
    if are_several(keys) && !are_all(there) {
        return Decision::TryAgain(Reason::SomeAreMissing);
    }
    Decision::ServeImport { number }
}

// The decision in a slot that leaves the node; `elsewhere` is the one where no key is there.
fn leaving(elsewhere: Decision, frozen: Option<&Keys>, keys: &[&[u8]], there: &[bool]) -> Decision
    ensures { IsByKeys (leaving elsewhere (option_copied frozen.entry)) keys.now there.now result }
{
    if is_frozen(frozen, keys) {
        return Decision::TryAgain(Reason::Frozen);
    }
    if are_all(there) {
        return Decision::Serve;
    }
    if is_any(there) {
        return Decision::TryAgain(Reason::SomeAreMissing);
    }
    elsewhere
}
