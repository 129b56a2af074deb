//! One word from which up to 16 seats draw tickets. A ticket is a number that orders all steps of all nodes.
//!
//! A draw is one atomic step of the word. Whatever the seats do at once, their tickets are the numbers below the word,
//! each drawn once, as the holder of all seats learns by [`close`].
#![tactic(auto)]

mod all_seats;
mod rule;
mod seat;

pub use all_seats::{close, open};
pub use seat::{Seat, Table};
