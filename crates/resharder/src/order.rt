//! The words that a run asks.
ghost use Rattle.std.specs.Prelude.{◌≡◌, ◌≤◌, ◌<◌, ◌^◌, ◌∷◌, ◌++◌, [], length, decimal, IfOk};
ghost use Rattle.resharder.specs.Orders.{AreShort, keys_words, migrate_words, order_word, set_words, slots_words, state_words};

use crate::migration::Migration;
use crate::nodes::word_of;
use byte_string::ByteString;
use cluster_config::NodeId;
use command_table::SlotOrder;
use itoa::Buffer;
use key_slot::{MoveNo, Slot};
use redirection::Address;
use resp_values::Words;
use std::alloc::{AllocError, Global};

/// `CLUSTER SLOTS`.
pub(crate) fn slots_words(alloc: Global) -> Result<Words, AllocError>
    ensures { IfOk result (λ words. words ≡ slots_words) }
{
    let words = vec![in alloc;
        ByteString::inline(b"CLUSTER"),
        ByteString::inline(b"SLOTS"),
    ]?;
    Ok(request(words))
}

/// `CLUSTER SLOTSTATE slot`.
pub(crate) fn state_words(alloc: Global, slot: Slot) -> Result<Words, AllocError>
    ensures { IfOk result (λ words. words ≡ state_words slot) }
{
    let slot = decimal(alloc, u64::from(slot.get()))?;
    let words = vec![in alloc;
        ByteString::inline(b"CLUSTER"),
        ByteString::inline(b"SLOTSTATE"),
        slot,
    ]?;
    Ok(request(words))
}

/// `CLUSTER GETKEYSINSLOT slot 16`.
pub(crate) fn keys_words(alloc: Global, slot: Slot) -> Result<Words, AllocError>
    ensures { IfOk result (λ words. words ≡ keys_words slot) }
{
    let slot = decimal(alloc, u64::from(slot.get()))?;
    let words = vec![in alloc;
        ByteString::inline(b"CLUSTER"),
        ByteString::inline(b"GETKEYSINSLOT"),
        slot,
        ByteString::inline(b"16"),
    ]?;
    Ok(request(words))
}

/// `CLUSTER SETSLOT slot`, the order, the id of the other node, and the number of the move where there is one.
pub(crate) fn set_words(
    alloc: Global,
    order: SlotOrder,
    slot: Slot,
    id: &NodeId,
    number: Option<MoveNo>,
) -> Result<Words, AllocError>
    ensures { IfOk result (λ words. words ≡ set_words order slot id.now number) }
{
    let slot = decimal(alloc, u64::from(slot.get()))?;
    let id = word_of(alloc, id)?;
    let mut words = vec![in alloc;
        ByteString::inline(b"CLUSTER"),
        ByteString::inline(b"SETSLOT"),
        slot,
        order_word(order),
        id,
    ]?;
    if let Some(number) = number {
        let number = decimal(alloc, number.get())?;
        words.push(number).map_err(AllocError::from)?;
    }
    Ok(request(words))
}

/// `MIGRATE host port "" 0 100 KEYS`, and the keys.
pub(crate) fn migrate_words(alloc: Global, migration: &Migration) -> Result<Words, AllocError>
    ensures { IfOk result (λ words. words ≡ migrate_words migration.now.to migration.now.keys) }
{
    let to = migration.to();
    let host = ByteString::copy_from_slice(alloc, to.host().bytes().as_slice())?;
    let port = decimal(alloc, u64::from(to.port()))?;
    let mut words = vec![in alloc;
        ByteString::inline(b"MIGRATE"),
        host,
        port,
        ByteString::new(),
        ByteString::inline(b"0"),
        ByteString::inline(b"100"),
        ByteString::inline(b"KEYS"),
    ]?;
    let keys = migration.keys();
    words.reserve(keys.len())?;
    for key in keys {
        let key = key.word()?;
        words.push(key).map_err(AllocError::from)?;
    }
    Ok(Words::of_items(words))
}

// The order as a node reads it.
fn order_word(order: SlotOrder) -> ByteString
    ensures word { result ≡ order_word order }
    ensures short { length result ≤ 20 }
{
    match order {
        SlotOrder::Importing => ByteString::inline(b"IMPORTING"),
        SlotOrder::Migrating => ByteString::inline(b"MIGRATING"),
        SlotOrder::Node => ByteString::inline(b"NODE"),
    }
}

// A few short words.
fn request(words: Vec<ByteString>) -> Words
    requires some { 1 ≤ length words.items }
    requires few { length words.items ≤ 6 }
    requires short { AreShort words.items }
    ensures { result ≡ words.items }
{
    Words::new(words).unwrap()
}

fn decimal(alloc: Global, number: u64) -> Result<ByteString, AllocError>
    requires { number < 2 ^ 63 }
    ensures word { IfOk result (λ word. word ≡ decimal number) }
    ensures short { length (decimal number) ≤ 20 }
{
    let mut buffer = Buffer::new();
    let text = buffer.format(number);
    ByteString::copy_from_slice(alloc, text.as_bytes())
}
