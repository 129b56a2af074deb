//! Walks over all connections that are open.
ghost use Rattle.std.specs.Prelude.{◌≡◌, ◌+◌, None, map, slice_index_or, IfOk};
ghost use Rattle.connections.specs.Connections.{aged, freed, is_waiting, shortened, waiting_from};
ghost use Rattle.connections.specs.Counting.{count_of_waits};
ghost use Rattle.connections.specs.Waiting.{test_of};
ghost use Rattle.connections.specs.Places.{with_place};

use crate::conn::{Conn, Connection, Wait};
use crate::places::Places;
use crate::waiting::Waiting;
use std::alloc::{AllocError, Global};

// The connections that are meant, by rising key.
pub(crate) fn waiting_in(
    places: &Places,
    alloc: Global,
    which: &Waiting,
) -> Result<Vec<Conn>, AllocError>
    ensures { IfOk result (λ conns. conns.items ≡ waiting_from 0 (test_of which.now) places.now.slots) }
{
    let mut conns = Vec::new(alloc);
    for (key, slot) in places.slots().iter().enumerate() {
        let Some(connection) = slot else {
            continue;
        };
        if which.is_meant(connection.waits) {
            conns.push(Conn {
                key,
                generation: connection.generation,
            })?;
        }
    }
    Ok(conns)
}

// Lets the connections that are meant wait no more, and counts them.
pub(crate) fn free_in(places: &mut Places, which: &Waiting) -> usize
    ensures freed { places.new.slots ≡ map (freed (test_of which.now)) places.old.slots }
    ensures count { result + count_of_waits places.new.slots ≡ count_of_waits places.old.slots }
{
    let mut count = 0;
    for key in 0..places.len() {
        if free_at(places, key, which) {
            count += 1;
        }
    }
    count
}

// Lets the connection with that key wait no more, if it is meant, and says whether it was.
fn free_at(places: &mut Places, key: usize, which: &Waiting) -> bool
    ensures meant { result ≡ is_waiting (test_of which.now) (slice_index_or places.old.slots key None) }
    ensures freed { places.new.slots ≡ with_place (freed (test_of which.now)) places.old.slots key }
{
    let Some(connection) = places.get(key).copied() else {
        return false;
    };
    if !which.is_meant(connection.waits) {
        return false;
    }
    places.put(
        key,
        Connection {
            waits: None,
            ..connection
        },
    );
    true
}

// Takes a tick from each wait.
pub(crate) fn age_in(places: &mut Places)
    ensures { places.new.slots ≡ map aged places.old.slots }
{
    for key in 0..places.len() {
        age_at(places, key);
    }
}

// Takes a tick from the wait of the connection with that key.
fn age_at(places: &mut Places, key: usize)
    ensures { places.new.slots ≡ with_place aged places.old.slots key }
{
    if let Some(connection) = places.get(key).copied() {
        places.put(
            key,
            Connection {
                waits: shortened(connection.waits),
                ..connection
            },
        );
    }
}

// The wait with a tick less.
fn shortened(waits: Option<Wait>) -> Option<Wait>
    ensures { result ≡ shortened waits }
{
    let wait = waits?;
    Some(Wait {
        ticks: wait.ticks.saturating_sub(1),
        ..wait
    })
}
