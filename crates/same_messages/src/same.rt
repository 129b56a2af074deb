//! Whether two messages are the same.
ghost use Rattle.std.specs.Prelude.{◌≡◌, ◌≢◌, true, false};

use bus::{Body, ElectionBody, Handing, Message, Piece, SlotsBody, Snapshot, StreamBody};
use hash::Hash;
use keyspace::{Pair, Value};
use slot_table::{Epoch, Run};

/// Whether both messages say the same, from the same step to the same node.
pub fn is_same_message(one: &Message, other: &Message) -> bool
    ensures same { result ≡ true → one.now ≡ other.now }
    ensures differ { result ≡ false → one.now ≢ other.now }
{
    one.from == other.from
        && one.to == other.to
        && one.ticket == other.ticket
        && one.epoch == other.epoch
        && is_same_body(&one.body, &other.body)
}

fn is_same_body(one: &Body, other: &Body) -> bool
    ensures same { result ≡ true → one.now ≡ other.now }
    ensures differ { result ≡ false → one.now ≢ other.now }
{
    match (one, other) {
        (Body::Slots(body), Body::Slots(other)) => is_same_of_slots(body, other),
        (Body::Stream(body), Body::Stream(other)) => is_same_of_stream(body, other),
        (Body::Election(body), Body::Election(other)) => is_same_of_election(body, other),
        (Body::Report(suspects), Body::Report(other)) => {
            are_same_marks(suspects.as_slice(), other.as_slice())
        }
        _ => false,
    }
}

fn is_same_of_slots(one: &SlotsBody, other: &SlotsBody) -> bool
    ensures same { result ≡ true → one.now ≡ other.now }
    ensures differ { result ≡ false → one.now ≢ other.now }
{
    match (one, other) {
        (
            SlotsBody::Copy { id, pairs },
            SlotsBody::Copy {
                id: other_id,
                pairs: other_pairs,
            },
        ) => id == other_id && are_same_pairs(pairs.as_slice(), other_pairs.as_slice()),
        (SlotsBody::Ack(id), SlotsBody::Ack(other)) => id == other,
        (
            SlotsBody::Drained {
                slot,
                number,
                epoch,
            },
            SlotsBody::Drained {
                slot: other_slot,
                number: other_number,
                epoch: other_epoch,
            },
        ) => slot == other_slot && number == other_number && epoch == other_epoch,
        (SlotsBody::Claim(claim, replaced), SlotsBody::Claim(other_claim, other_replaced)) => {
            are_same_runs(claim.runs(), other_claim.runs()) && replaced == other_replaced
        }
        _ => false,
    }
}

fn is_same_of_stream(one: &StreamBody, other: &StreamBody) -> bool
    ensures same { result ≡ true → one.now ≡ other.now }
    ensures differ { result ≡ false → one.now ≢ other.now }
{
    match (one, other) {
        (StreamBody::Sync(sync), StreamBody::Sync(other)) => sync == other,
        (StreamBody::Piece(piece), StreamBody::Piece(other)) => is_same_piece(piece, other),
        (StreamBody::Snapshot(snapshot), StreamBody::Snapshot(other)) => {
            is_same_snapshot(snapshot, other)
        }
        _ => false,
    }
}

fn is_same_of_election(one: &ElectionBody, other: &ElectionBody) -> bool
    ensures same { result ≡ true → one.now ≡ other.now }
    ensures differ { result ≡ false → one.now ≢ other.now }
{
    match (one, other) {
        (ElectionBody::Candidacy(request), ElectionBody::Candidacy(other)) => request == other,
        (ElectionBody::Grant(epoch), ElectionBody::Grant(other)) => epoch == other,
        (ElectionBody::Pause(stream), ElectionBody::Pause(other)) => stream == other,
        (ElectionBody::Paused(handing), ElectionBody::Paused(other)) => {
            is_same_handing(handing, other)
        }
        _ => false,
    }
}

fn are_same_marks(one: &[bool], other: &[bool]) -> bool
    ensures same { result ≡ true → one.now ≡ other.now }
    ensures differ { result ≡ false → one.now ≢ other.now }
{
    one == other
}

fn is_same_piece(one: &Piece, other: &Piece) -> bool
    ensures same { result ≡ true → one.now ≡ other.now }
    ensures differ { result ≡ false → one.now ≢ other.now }
{
    one.stream() == other.stream()
        && one.from() == other.from()
        && one.base() == other.base()
        && one.bytes() == other.bytes()
}

fn is_same_snapshot(one: &Snapshot, other: &Snapshot) -> bool
    ensures same { result ≡ true → one.now ≡ other.now }
    ensures differ { result ≡ false → one.now ≢ other.now }
{
    one.stream == other.stream
        && one.offset == other.offset
        && are_same_pairs(one.pairs.as_slice(), other.pairs.as_slice())
}

fn is_same_handing(one: &Handing, other: &Handing) -> bool
    ensures same { result ≡ true → one.now ≡ other.now }
    ensures differ { result ≡ false → one.now ≢ other.now }
{
    one.stream == other.stream
        && one.offset == other.offset
        && are_same_runs(one.slots.runs(), other.slots.runs())
}

fn are_same_pairs(one: &[Pair], other: &[Pair]) -> bool
    ensures same { result ≡ true → one.now ≡ other.now }
    ensures differ { result ≡ false → one.now ≢ other.now }
{
    if one.len() != other.len() {
        return false;
    }
    for place in 0..one.len() {
        if !is_same_pair(&one[place], &other[place]) {
            return false;
        }
    }
    true
}

fn is_same_pair(one: &Pair, other: &Pair) -> bool
    ensures same { result ≡ true → one.now ≡ other.now }
    ensures differ { result ≡ false → one.now ≢ other.now }
{
    one.key() == other.key() && is_same_value(one.value(), other.value())
}

fn are_same_runs(one: &[Run<Epoch>], other: &[Run<Epoch>]) -> bool
    ensures same { result ≡ true → one.now ≡ other.now }
    ensures differ { result ≡ false → one.now ≢ other.now }
{
    if one.len() != other.len() {
        return false;
    }
    for place in 0..one.len() {
        if !is_same_run(&one[place], &other[place]) {
            return false;
        }
    }
    true
}

fn is_same_run(one: &Run<Epoch>, other: &Run<Epoch>) -> bool
    ensures same { result ≡ true → one.now ≡ other.now }
    ensures differ { result ≡ false → one.now ≢ other.now }
{
    one.slots.first == other.slots.first
        && one.slots.last == other.slots.last
        && one.value == other.value
}

fn is_same_value(one: &Value, other: &Value) -> bool
    ensures same { result ≡ true → one.now ≡ other.now }
    ensures differ { result ≡ false → one.now ≢ other.now }
{
    match (one, other) {
        (Value::Str(bytes), Value::Str(other_bytes)) => bytes == other_bytes,
        (Value::Hash(hash), Value::Hash(other_hash)) => is_same_hash(hash, other_hash),
        _ => false,
    }
}

fn is_same_hash(one: &Hash, other: &Hash) -> bool
    ensures same { result ≡ true → one.now ≡ other.now }
    ensures differ { result ≡ false → one.now ≢ other.now }
{
    let mut theirs = other.iter();
    for (field, value) in one.iter() {
        let Some((name, held)) = theirs.next() else {
            return false;
        };
        if !(field == name && value == held) {
            return false;
        }
    }
    theirs.next().is_none()
}
