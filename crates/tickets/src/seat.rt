//! A table with a word, and its seats, which draw tickets from the word and read it.
ghost use Rattle.std.specs.Prelude.{◌≡◌, [], ◌*◌, ◌^◌, ◌<◌, ◌≤◌, length, IfSome, IfNone, All};
ghost use Rattle.std.specs.Arc.{arc_value};

use crate::rule::{Draws, Loads, Raw, Token};
use std::alloc::Global;
use std::sync::Arc;

// How many tickets one seat may draw. The word of 16 seats then stays far below 2^64.
const MOST: u64 = 1 << 48;

/// Names the word that its seats share.
#[derive(Drop)]
pub struct Table {
    raw: Arc<Raw, Global>,
    ghost one_word: { (arc_value raw).shared.table_id.words ≡ 1 },
}

impl Table {
    pub(crate) fn over(raw: Arc<Raw, Global>) -> Table
        requires { (arc_value raw).shared.table_id.words ≡ 1 }
        ensures { result.raw ≡ raw }
    {
        Table { raw }
    }

    pub(crate) fn raw(&self) -> &Raw
        ensures { result.now ≡ arc_value self.now.raw }
    {
        &self.raw
    }
}

/// One of the seats of a [`Table`], with what it drew.
#[derive(Drop)]
pub struct Seat {
    raw: Arc<Raw, Global>,
    token: Token,
    count: u64,
    ghost one_word: { (arc_value raw).shared.table_id.words ≡ 1 },
    ghost seated: { token.table_id ≡ (arc_value raw).shared.table_id },
    ghost at_rest: { token.me.1 ≡ [] },
    ghost counted: { count ≡ length token.me.0.drawn },
    ghost one_part: { token.me.0.parts ≡ 1 },
}

impl Seat {
    ghost use Rattle.tickets.specs.Tickets.{drawn, table_of, seats_of, HasDrawnNext, IsSameSeat};

    // A seat that has drawn nothing.
    pub(crate) fn over(raw: Arc<Raw, Global>, token: Token) -> Seat
        requires table { (token.table_id ≡ (arc_value raw).shared.table_id) × ((arc_value raw).shared.table_id.words ≡ 1) }
        requires fresh { (token.me.1 ≡ []) × (token.me.0.parts ≡ 1) × (token.me.0.drawn ≡ []) }
        ensures { result.token ≡ token }
    {
        Seat {
            raw,
            token,
            count: 0,
        }
    }

    pub(crate) fn into_token(self) -> Token
        ensures { result ≡ self.token }
    {
        let Seat {
            raw: _,
            token,
            count: _,
        } = self;
        token
    }

    /// Draws the next ticket, greater than all that this seat has, by one atomic step that neither waits nor allocates.
    ///
    /// It returns `None` only after 2^48 tickets, and leaves the word as it was.
    pub fn draw(&mut self) -> Option<u64>
        ensures table { (table_of self.new ≡ table_of self.old) × (seats_of self.new ≡ seats_of self.old) }
        ensures some { IfSome result (HasDrawnNext self.old self.new) }
        ensures none { IfNone result ((drawn self.new ≡ drawn self.old) × (2 ^ 48 ≤ length (drawn self.old))) }
    {
        if self.count >= MOST {
            return None;
        }
        let number = self.raw.shared.fetch_add::<Draws>(&mut self.token, 0, 1);
        self.count += 1;
        Some(number)
    }

    /// The word: how many tickets were drawn so far, by all seats. One atomic load.
    pub fn word(&mut self) -> u64
        ensures same { IsSameSeat self.old self.new }
        ensures above { All (λ x. x < result) (drawn self.old) }

        // Each seat draws at most 2^48 tickets, and an only seat drew all of them.
        ensures within { result ≤ seats_of self.old * 2 ^ 48 }
        ensures alone { seats_of self.old ≡ 1 → result ≡ length (drawn self.old) }
    {
        self.raw.shared.load::<Loads>(&mut self.token, 0)
    }
}
