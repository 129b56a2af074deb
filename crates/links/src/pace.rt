//! Messages that wait in greater numbers than they should.
ghost use Rattle.std.specs.Prelude.{◌≡◌, ◌||◌, nat_lt, sum_by};
ghost use Rattle.bus.specs.declared.message.Body.TheVariants.{Slots, Stream as OfStream};
ghost use Rattle.links.specs.Pace.{IsRoomBehind, are_many, brought_bytes, pair_bytes, value_bytes, waiting_bytes};

use bus::{Body, SlotsBody, StreamBody};
use keyspace::{Pair, Value};
use node_cell::{Deployment, Posted};
use std::collections::VecDeque;

/// So many messages may wait for a link before whoever makes more should wait, too.
pub const MOST_WAITING: usize = 4096;

/// And so many bytes may they bring, of streams and of keys that move.
pub const MOST_WAITING_BYTES: usize = 67_108_864;

/// Whether more messages wait than that, or bring more bytes.
pub(crate) fn are_many<K: Deployment>(waiting: &VecDeque<Posted<K>>) -> bool
    ensures { result ≡ are_many waiting.now.items }
{
    waiting.len() > MOST_WAITING || are_long(waiting)
}

// Whether they bring more than so many bytes.
fn are_long<K: Deployment>(waiting: &VecDeque<Posted<K>>) -> bool
    ensures { result ≡ nat_lt MOST_WAITING_BYTES (waiting_bytes waiting.now.items) }
{
    let mut room = MOST_WAITING_BYTES as u128;
    for place in 0..waiting.len() {
        match room_after(room, &waiting[place].message().body) {
            Some(left) => room = left,
            None => return true,
        }
    }
    false
}

// What is left of the room once a message has brought its bytes, or None where they are more.
fn room_after(room: u128, body: &Body) -> Option<u128>
    ensures { IsRoomBehind (brought_bytes body.now) room result }
{
    match body {
        Body::Slots(body) => room_after_slots(room, body),
        Body::Stream(body) => room_after_stream(room, body),
        Body::Election(_) | Body::Report(_) => Some(room),
    }
}

fn room_after_slots(room: u128, body: &SlotsBody) -> Option<u128>
    ensures { IsRoomBehind (brought_bytes (Slots body.now)) room result }
{
    match body {
        SlotsBody::Copy { pairs, .. } => room_after_pairs(room, pairs.as_slice()),
        SlotsBody::Ack(_) | SlotsBody::Drained { .. } | SlotsBody::Claim(_, _) => Some(room),
    }
}

// A snapshot has all keys of a node. They aren't counted, since they would be walked under the node's lock.
fn room_after_stream(room: u128, body: &StreamBody) -> Option<u128>
    ensures { IsRoomBehind (brought_bytes (OfStream body.now)) room result }
{
    match body {
        StreamBody::Piece(piece) => room.checked_sub(piece.bytes().len() as u128),
        StreamBody::Sync(_) | StreamBody::Snapshot(_) => Some(room),
    }
}

// The same for keys with their values. They share long strings, so their sum may pass what 128 bits hold: it isn't made.
fn room_after_pairs(room: u128, pairs: &[Pair]) -> Option<u128>
    ensures { IsRoomBehind (sum_by pair_bytes pairs.now) room result }
{
    let mut left = room;
    for pair in pairs {
        left = left.checked_sub(pair.key().len() as u128)?;
        left = left.checked_sub(value_bytes(pair.value()))?;
    }
    Some(left)
}

// The bytes of a value. A large hash keeps their number, and only the fields of a small one are walked.
fn value_bytes(value: &Value) -> u128
    ensures { result ≡ value_bytes value.now }
{
    match value {
        Value::Str(bytes) => bytes.len() as u128,
        Value::Hash(hash) => hash.size(),
    }
}
