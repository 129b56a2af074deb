//! The errors by which a node sends a client to another one.
ghost use Rattle.std.specs.Prelude.{◌≡◌, ◌++◌, codes, IfSome, IfNone, IfOk};
ghost use Rattle.redirection.specs.Redirection.{IsRedirection, IsNoRedirection};
ghost use Rattle.redirection.specs.Splitting.{IsNumber, IsNoNumber, IsNumbered, IsNotNumbered, IsSlotAndRest, IsNoSlotAndRest};

use crate::address::Address;
use crate::splitting::{short_in, split_at};
use command_table::move_no_in;
use key_slot::{MoveNo, Slot};
use std::alloc::{AllocError, Global};

/// What a MOVED or an ASK tells.
#[derive(Debug, Drop)]
pub enum Redirection {
    /// The node at the address owns the slot.
    Moved {
        slot: Slot,
        to: Address,
    },
    /// The command is to be asked of the node at the address, this time only. The number of the move stands there
    /// where the connection wants it.
    Ask {
        slot: Slot,
        to: Address,
        number: Option<MoveNo>,
    },
}

/// The redirection that the text of an error is, or None where it is none: where no node writes it.
pub fn read_redirection(alloc: Global, text: &[u8]) -> Result<Option<Redirection>, AllocError>
    ensures found { IfOk result (λ found. IfSome found (λ redirection. IsRedirection text.now redirection)) }
    ensures none { IfOk result (λ found. IfNone found (IsNoRedirection text.now)) }
{
    if let Some(place) = text.strip_prefix(b"MOVED ") {
        return read_moved(alloc, place);
    }
    match text.strip_prefix(b"ASK ") {
        Some(place) => read_ask(alloc, place),
        None => Ok(None),
    }
}

// What stands behind `MOVED `.
fn read_moved(alloc: Global, text: &[u8]) -> Result<Option<Redirection>, AllocError>
    ensures found { IfOk result (λ found. IfSome found (λ redirection. IsRedirection (codes "MOVED " ++ text.now) redirection)) }
    ensures none { IfOk result (λ found. IfNone found (IsNoRedirection (codes "MOVED " ++ text.now))) }
{
    let Some((slot, address)) = slot_and_rest(text) else {
        return Ok(None);
    };
    match Address::read(alloc, address)? {
        Some(to) => Ok(Some(Redirection::Moved { slot, to })),
        None => Ok(None),
    }
}

// What stands behind `ASK `.
fn read_ask(alloc: Global, text: &[u8]) -> Result<Option<Redirection>, AllocError>
    ensures found { IfOk result (λ found. IfSome found (λ redirection. IsRedirection (codes "ASK " ++ text.now) redirection)) }
    ensures none { IfOk result (λ found. IfNone found (IsNoRedirection (codes "ASK " ++ text.now))) }
{
    let Some((slot, rest)) = slot_and_rest(text) else {
        return Ok(None);
    };
    let Some((address, number)) = split_number(rest) else {
        return Ok(None);
    };
    match Address::read(alloc, address)? {
        Some(to) => Ok(Some(Redirection::Ask { slot, to, number })),
        None => Ok(None),
    }
}

// The slot before the first blank, and what stands behind it.
fn slot_and_rest(text: &[u8]) -> Option<(Slot, &[u8])>
    ensures found { IfSome result (λ parts. IsSlotAndRest text.now parts.0 parts.1.now) }
    ensures none { IfNone result (IsNoSlotAndRest text.now) }
{
    let (slot, rest) = split_at(text, b' ')?;
    Some((slot_in(slot)?, rest))
}

fn slot_in(text: &[u8]) -> Option<Slot>
    ensures found { IfSome result (λ slot. IsNumber 0 16383 text.now slot) }
    ensures none { IfNone result (IsNoNumber 0 16383 text.now) }
{
    Slot::new(short_in(text)?)
}

// What stands before the first blank, and the number of the move behind it, where a blank is there.
fn split_number(text: &[u8]) -> Option<(&[u8], Option<MoveNo>)>
    ensures found { IfSome result (λ parts. IsNumbered text.now parts.0.now parts.1) }
    ensures none { IfNone result (IsNotNumbered text.now) }
{
    match split_at(text, b' ') {
        Some((address, number)) => Some((address, Some(move_no_in(number)?))),
        None => Some((text, None)),
    }
}
