//! Replies to connections that waited, until their threads take them: an item of the list for each step that gave some.
ghost use Rattle.std.specs.Prelude.{◌≡◌, ◌<◌, ◌==◌, ◌++◌, length, not, position, vec_len, vec_capacity, IfSome};
ghost use Rattle.std.specs.List.{list_any};
ghost use Rattle.node_step.specs.Released.{of_others, reply_to, without_reply_to};
ghost use Rattle.cell_parts.specs.Undelivered.{has_for, joined, undelivered_after};

use connections::Conn;
use node_step::{Event, Releases};
use resp_values::Reply;

/// Adds the replies of the step for the event. A connection that it closed gets none any more. There has to be room.
#[inline(always)]
pub fn add_released(undelivered: &mut Vec<Releases>, event: &Event, released: Releases)
    requires { vec_len undelivered.old < vec_capacity undelivered.old }
    ensures { joined undelivered.new.items
        ≡ undelivered_after event.now (joined undelivered.old.items) released }
{
    if let Event::Close(conn) = event {
        forget_replies_to(undelivered, *conn);
    }
    add(undelivered, released);
}

// Adds the replies of a step. There has to be room.
fn add(undelivered: &mut Vec<Releases>, released: Releases)
    requires { vec_len undelivered.old < vec_capacity undelivered.old }
    ensures { joined undelivered.new.items ≡ joined undelivered.old.items ++ released }
{
    if released.as_slice().is_empty() {
        return;
    }
    let Ok(()) = undelivered.push(released) else {
        unreachable!();
    };
}

/// Takes out the first reply to the connection.
pub fn take_reply_to(undelivered: &mut Vec<Releases>, conn: Conn) -> Option<Reply>
    ensures reply { result ≡ reply_to conn (joined undelivered.old.items) }
    ensures left { joined undelivered.new.items
        ≡ without_reply_to conn (joined undelivered.old.items) }
{
    let at = place_for(undelivered.as_slice(), conn)?;
    let reply = undelivered[at].take(conn);
    if undelivered[at].as_slice().is_empty() {
        let _empty = undelivered.remove(at);
    }
    reply
}

// The first item with a reply to the connection.
fn place_for(undelivered: &[Releases], conn: Conn) -> Option<usize>
    ensures place { result ≡ position (has_for conn) undelivered.now }
    ensures within { IfSome result (λ place. place < length undelivered.now) }
{
    undelivered.iter().position(|part| has_for(part, conn))
}

fn has_for(part: &Releases, conn: Conn) -> bool
    ensures { result ≡ has_for conn part.now }
{
    part.as_slice().iter().any(|release| release.conn == conn)
}

/// Whether there is a reply.
pub fn has_some(undelivered: &[Releases]) -> bool
    ensures { result ≡ list_any (λ part. not (length part == 0)) undelivered.now }
{
    undelivered.iter().any(|part| is_some(part))
}

fn is_some(part: &Releases) -> bool
    ensures { result ≡ not (length part.now == 0) }
{
    !part.as_slice().is_empty()
}

// Drops the replies to the connection.
fn forget_replies_to(undelivered: &mut Vec<Releases>, conn: Conn)
    ensures room { vec_len undelivered.old < vec_capacity undelivered.old
        → vec_len undelivered.new < vec_capacity undelivered.new }
    ensures others { joined undelivered.new.items ≡ of_others conn (joined undelivered.old.items) }
{
    for at in 0..undelivered.len() {
        undelivered[at].forget(conn);
    }
    undelivered.retain(|part| !part.as_slice().is_empty());
}
