//! What a node does with a slot.

/// What a node does with a slot. `M` is the move, or a reference to it.
#[derive(Clone, Copy, PartialEq, Eq, Debug)]
pub enum SlotState<M> {
    /// It owns the slot and serves all its keys.
    Owned,
    /// It leaves the slot to its owner, if there is one.
    Foreign,
    /// It takes part in a move of the slot.
    Moving(M),
}
