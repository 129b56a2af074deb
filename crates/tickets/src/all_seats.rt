//! All seats of a table: they are dealt as it is opened, and taken back as it is closed.
ghost use Rattle.std.specs.Prelude.{◌≡◌, ◌<◌, ◌≤◌, [], length, IfOk, IfSome, IsSome, IsNone, All, vec_len};
ghost use Rattle.std.specs.Arc.{arc_value};
ghost use Rattle.tickets.specs.Rule.{seat_view};
ghost use Rattle.tickets.specs.Tickets.{drawn, table_of, seats_of, id_of, seat_count, total, DrewEachOnce, IsFresh};

use crate::rule::{Loads, OnePart, Raw, Together, Token};
use crate::seat::{Seat, Table};
use std::alloc::{AllocError, Global};
use std::sync::Arc;

/// Makes a word at 0 and its `n` seats, or fails when out of memory.
pub fn open(alloc: Global, n: u64) -> Result<(Table, Vec<Seat>), AllocError>
    requires { (0 < n) × (n ≤ 16) }
    ensures count { IfOk result (λ r. vec_len r.1 ≡ n) }
    ensures fresh { IfOk result (λ r. All (λ s. IsFresh (id_of r.0) n s) r.1.items) }
    ensures seats { IfOk result (λ r. seat_count r.0 ≡ n) }
{
    let (raw, first) = Raw::of_words(alloc, &[0], &n)?;
    let raw = Arc::new(alloc, raw)?;
    let seats = deal(alloc, &raw, first, n)?;
    Ok((Table::over(raw), seats))
}

// The first token has the parts of all n seats, and gives one to each of the others.
fn deal(
    alloc: Global,
    raw: &Arc<Raw, Global>,
    mut first: Token,
    n: u64,
) -> Result<Vec<Seat>, AllocError>
    requires word { (0 < n) × ((arc_value raw.now).shared.table_id.words ≡ 1) }
    requires first { (first.table_id ≡ (arc_value raw.now).shared.table_id) × (first.me ≡ (seat_view n n [], [])) }
    ensures count { IfOk result (λ seats. vec_len seats ≡ n) }
    ensures fresh { IfOk result (λ seats. All (IsFresh (arc_value raw.now).shared.table_id n) seats.items) }
{
    let mut seats = Vec::with_capacity(alloc, n as usize)?;
    for _made in 0..n - 1 {
        let token = raw.shared.split_seat::<OnePart>(&mut first);
        let seat = Seat::over(Arc::try_clone(raw)?, token);
        seats.push(seat).map_err(AllocError::from)?;
    }
    let seat = Seat::over(Arc::try_clone(raw)?, first);
    seats.push(seat).map_err(AllocError::from)?;
    Ok(seats)
}

/// Takes all seats of the table back and reads the word: together they drew the numbers below it, each once.
///
/// It returns `None` only for an empty list.
pub fn close(table: &Table, mut seats: Vec<Seat>) -> Option<u64>
    requires seated { All (λ s. table_of s ≡ id_of table.now) seats.items }
    requires whole { All (λ s. seats_of s ≡ vec_len seats) seats.items }
    ensures each_once { IfSome result (DrewEachOnce seats.items) }
    ensures count { IfSome result (λ n. total (λ s. length (drawn s)) seats.items ≡ n) }
    ensures some { 0 < vec_len seats → IsSome result }
    ensures none { vec_len seats ≡ 0 → IsNone result }
{
    let shared = &table.raw().shared;
    let mut all = seats.pop()?.into_token();
    while let Some(seat) = seats.pop() {
        shared.join_seat::<Together>(&mut all, seat.into_token());
    }
    Some(shared.load::<Loads>(&mut all, 0))
}
