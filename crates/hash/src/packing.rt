//! Pairs in bytes: each word behind its length, which takes one byte, and each field before its value.
ghost use Rattle.std.specs.Prelude.{◌≡◌, ◌<◌, length, Some, None, IfSome, IfNone, OnOk};
ghost use Rattle.std.specs.Option.{option_copied};
ghost use Rattle.hash.specs.Packed.{repacked, IsPacking, IsShortWord, IsShortValue};
ghost use Rattle.hash.specs.Places.{BeginsWithPair, LiesAt, IsNowhere};

use crate::alike::alike;
use crate::block::{cut_from, write_over};
use crate::copying::{push_word, with_word};
use crate::reading::byte_at;
use byte_string::ByteString;
use std::alloc::AllocError;

/// The largest number of bytes of a word whose length fits one byte.
pub const MOST_IN_WORD: usize = 255;

/// Where a pair lies.
#[derive(Clone, Copy)]
pub struct Place {
    /// Where the pair begins, with the length of its field.
    pub at: usize,
    /// Where its value begins, with the length.
    pub value: usize,
    /// Where the next pair begins, or the bytes end.
    pub end: usize,
}

/// Where the first pair lies.
pub fn first_pair(bytes: &[u8]) -> Place
    requires packing { IsPacking bytes.now }
    requires some { 0 < length bytes.now }
    ensures { BeginsWithPair bytes.now result.value result.end }
{
    let value = 1 + bytes[0] as usize;
    let end = value + 1 + byte_at(bytes, value) as usize;
    Place { at: 0, value, end }
}

/// Where the pair of the field lies, if there is one.
pub fn place_of(bytes: &[u8], field: &[u8]) -> Option<Place>
    requires { IsPacking bytes.now }
    ensures some { IfSome result (LiesAt bytes.now field.now) }
    ensures none { IfNone result (IsNowhere bytes.now field.now) }
{
    let mut at = 0;
    while at < bytes.len() {
        let rest = &bytes[at..];
        let first = first_pair(rest);
        if alike(&rest[1..first.value], field) {
            return Some(Place {
                at,
                value: at + first.value,
                end: at + first.end,
            });
        }
        at += first.end;
    }
    None
}

/// Sets the field where it has a value, and removes it where it has none.
pub fn change_field(
    bytes: &mut Vec<u8>,
    field: &ByteString,
    value: Option<&ByteString>,
) -> Result<(), AllocError>
    requires packing { IsPacking bytes.old.items }
    requires field { IsShortWord field.now }
    requires value { IsShortValue (option_copied value) }
    ensures { OnOk result (bytes.new.items ≡ repacked bytes.old.items field.now (option_copied value.entry)) }
{
    match value {
        Some(value) => set_field(bytes, field.as_slice(), value.as_slice()),
        None => {
            remove_field(bytes, field.as_slice());
            Ok(())
        }
    }
}

// A new field comes last, and one that is there keeps its place. A value that keeps its length is written over the old one.
fn set_field(bytes: &mut Vec<u8>, field: &[u8], value: &[u8]) -> Result<(), AllocError>
    requires packing { IsPacking bytes.old.items }
    requires field { IsShortWord field.now }
    requires value { IsShortWord value.now }
    ensures { OnOk result (bytes.new.items ≡ repacked bytes.old.items field.now (Some value.now)) }
{
    match place_of(bytes.as_slice(), field) {
        Some(place) if place.end - (place.value + 1) == value.len() => {
            write_over(bytes, place.value + 1, value);
            Ok(())
        }
        Some(place) => {
            let alloc = *bytes.allocator();
            *bytes = with_word(alloc, bytes.as_slice(), place.value, place.end, value)?;
            Ok(())
        }
        None => {
            push_word(bytes, field)?;
            push_word(bytes, value)
        }
    }
}

fn remove_field(bytes: &mut Vec<u8>, field: &[u8])
    requires { IsPacking bytes.old.items }
    ensures { bytes.new.items ≡ repacked bytes.old.items field.now None }
{
    if let Some(place) = place_of(bytes.as_slice(), field) {
        cut_from(bytes, place.at, place.end);
    }
}
