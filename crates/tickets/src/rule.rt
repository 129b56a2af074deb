//! The rule of the word: the seats' tickets are the numbers below it, each once.
ghost use Rattle.std.specs.Prelude.{◌+◌, ◌-◌, ◌++◌, []};

use atomic_table::{Join, Play, Split, TableRule};
use std::alloc::Global;
use std::collections::LinkedList;

// What the rule knows of a seat: how many of all seats it counts for, how many there are, and what it drew. It is only
// a type for proofs, and the program makes no value of it.
pub struct SeatView {
    pub parts: u64,
    pub all: u64,
    pub drawn: LinkedList<u64>,
}

// The rule that each step keeps; its key is the number of seats.
pub struct TicketRule;

impl<S> TableRule<S, SeatView, u64> for TicketRule {
    ghost use Rattle.tickets.specs.Rule.{HoldsTickets, seat_view};

    ghost holds = { HoldsTickets };

    ghost first = { λ n. seat_view n n [] };
}

// A step that draws the number that it finds.
pub struct Draws;

impl<S> Play<S, SeatView> for Draws {
    ghost use Rattle.tickets.specs.Rule.{HasDrawn};

    ghost then = { λ _. HasDrawn };
}

// A step that loads the word.
pub struct Loads;

impl<S> Play<S, SeatView> for Loads {
    ghost use Rattle.tickets.specs.Rule.{HasLoaded};

    ghost then = { λ _. HasLoaded };
}

// A new seat of one part, with nothing drawn.
pub struct OnePart;

impl Split<SeatView> for OnePart {
    ghost use Rattle.tickets.specs.Rule.{seat_view};

    ghost left = { λ v. seat_view (v.parts - 1) v.all v.drawn };

    ghost right = { λ v. seat_view 1 v.all [] };
}

// One seat with the parts and the tickets of two.
pub struct Together;

impl Join<SeatView> for Together {
    ghost use Rattle.tickets.specs.Rule.{seat_view};

    ghost both = { λ v w. seat_view (v.parts + w.parts) v.all (v.drawn ++ w.drawn) };

    ghost spent = { seat_view 0 0 [] };
}

// A table of one word and no slots.
pub type Raw = atomic_table::Table<u8, SeatView, u64, TicketRule, Global>;

pub type Token = atomic_table::Seat<u8, SeatView>;
