//! Two seats that draw in turn have the numbers from 0 to 3 between them.
ghost use Rattle.std.specs.Prelude.{◌≡◌, ℕ, ◌∷◌, [], IfOk};
ghost use Rattle.tickets.specs.Tickets.{times, once_below};

use std::alloc::{AllocError, Global};

/// What two seats drew, and the word after that.
#[derive(Clone, Copy, PartialEq, Eq, Debug)]
pub struct Turns {
    /// What the first seat drew.
    pub first: (u64, u64),
    /// What the second seat drew.
    pub second: (u64, u64),
    /// The word that was closed.
    pub word: u64,
}

/// Has two seats draw twice each, in turn, and takes them back.
pub fn turn_about(alloc: Global) -> Result<Turns, AllocError>
    ensures word { IfOk result (λ turns. turns.word ≡ 4) }
    ensures each_once { IfOk result (λ turns. (x : ℕ) → times x
        (turns.first.0 ∷ turns.first.1 ∷ turns.second.0 ∷ turns.second.1 ∷ []) ≡ once_below x 4) }
{
    let (table, mut seats) = tickets::open(alloc, 2)?;
    let (Some(mut second), Some(mut first)) = (seats.pop(), seats.pop()) else {
        unreachable!()
    };
    let (Some(a), Some(b), Some(c), Some(d)) = (
        first.draw(),
        second.draw(),
        first.draw(),
        second.draw(),
    ) else {
        unreachable!()
    };
    let both = vec![in alloc; first, second]?;
    let Some(word) = tickets::close(&table, both) else {
        unreachable!()
    };
    Ok(Turns {
        first: (a, c),
        second: (b, d),
        word,
    })
}
