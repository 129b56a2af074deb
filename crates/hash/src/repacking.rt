//! Packed pairs that are packed anew, with changes.
ghost use Rattle.std.specs.Prelude.{◌≡◌, ◌≤◌, Some, None, length, IfOk, IfSome, OnOk, OnErr};
ghost use Rattle.hash.specs.Kept.{IsKept, Keeps, KeepsSet, KeepsChanged};
ghost use Rattle.hash.specs.Packed.{pairs_in, IsPacked, IsShortWord, SetShortWords};
ghost use Rattle.hash.specs.Pairs.{field_changed, fields_changed};
ghost use Rattle.hash.specs.Places.{LiesAt, IsNowhere};
ghost use Rattle.hash.specs.Size.{size_of};

use crate::block::Block;
use crate::copying::{with_pair, with_word};
use crate::count::Count;
use crate::packing::{MOST_IN_WORD, Place, change_field};
use crate::sizes::short_size;
use crate::walk::Walk;
use byte_string::ByteString;
use std::alloc::{AllocError, Global};

/// How many bytes the pairs take packed at most. To change one of them, all are copied.
pub const MOST_PACKED: usize = 2048;

/// Puts one more pair behind the others, and says whether it does: not where they are too many or too long.
pub fn extend(
    alloc: Global,
    block: &mut Block,
    field: &[u8],
    value: &[u8],
) -> Result<bool, AllocError>
    requires kept { IsKept block.old }
    requires nowhere { IsNowhere block.old.bytes field.now }
    ensures ok { IfOk result (KeepsSet block.old block.new field.now value.now) }
    ensures err { OnErr result (block.new ≡ block.old) }
{
    if field.len() > MOST_IN_WORD || value.len() > MOST_IN_WORD {
        return Ok(false);
    }
    let after = with_pair(alloc, block.as_slice(), field, value)?;
    if after.len() > MOST_PACKED {
        return Ok(false);
    }
    let count = block.count();
    let count = Count {
        fields: count.fields + 1,
        size: count.size + short_size(field) + short_size(value),
    };
    block.take_over(alloc, after, count)?;
    Ok(true)
}

/// Gives another value to the field whose pair lies there, and says whether it does: not where the pairs are too long.
pub fn replace(
    alloc: Global,
    block: &mut Block,
    place: Place,
    field: &[u8],
    value: &[u8],
) -> Result<bool, AllocError>
    requires kept { IsKept block.old }
    requires lies { LiesAt block.old.bytes field.now place }
    ensures ok { IfOk result (KeepsSet block.old block.new field.now value.now) }
    ensures err { OnErr result (block.new ≡ block.old) }
{
    if value.len() > MOST_IN_WORD {
        return Ok(false);
    }
    let bytes = block.as_slice();
    let after = with_word(alloc, bytes, place.value, place.end, value)?;
    if after.len() > MOST_PACKED {
        return Ok(false);
    }
    let count = block.count();
    let old = &bytes[place.value + 1..place.end];
    let count = Count {
        fields: count.fields,
        size: count.size - short_size(old) + short_size(value),
    };
    block.take_over(alloc, after, count)?;
    Ok(true)
}

/// Takes out the pair of the field, which lies there. The block stays.
pub fn cut_out(block: &mut Block, place: Place, field: &[u8])
    requires kept { IsKept block.old }
    requires lies { LiesAt block.old.bytes field.now place }
    ensures { Keeps block.new (field_changed (pairs_in block.old.bytes) field.now None) }
{
    let old = &block.as_slice()[place.value + 1..place.end];
    let gone = short_size(field) + short_size(old);
    let count = block.count();
    block.cut(place.at, place.end);
    block.keep(Count {
        fields: count.fields - 1,
        size: count.size - gone,
    });
}

/// Makes the changes one after another, and says whether they are made: not where they or the pairs are too many or too
/// long.
pub fn change_all(
    alloc: Global,
    block: &mut Block,
    changes: &[(ByteString, Option<ByteString>)],
) -> Result<bool, AllocError>
    requires kept { IsKept block.old }
    ensures ok { IfOk result (KeepsChanged block.old block.new changes.now) }
    ensures err { OnErr result (block.new ≡ block.old) }
{
    let Some(room) = room_for(changes) else {
        return Ok(false);
    };
    let bytes = block.as_slice();
    let mut after = Vec::with_capacity(alloc, bytes.len().saturating_add(room))?;
    after.extend_from_slice(bytes)?;
    change_fields(&mut after, changes)?;
    if after.len() > MOST_PACKED {
        return Ok(false);
    }
    let count = counted(after.as_slice());
    after.shrink_to_fit();
    block.take_over(alloc, after, count)?;
    Ok(true)
}

// How many bytes the changes may add, or None where they are too many to be made to packed pairs, or a word is too long.
fn room_for(changes: &[(ByteString, Option<ByteString>)]) -> Option<usize>
    ensures { IfSome result (λ _. SetShortWords changes.now) }
{
    let mut room = 0usize;
    for (field, value) in changes {
        let value_len = value.as_ref().map_or(0, |value| value.len());
        if field.len() > MOST_IN_WORD || value_len > MOST_IN_WORD {
            return None;
        }
        room = room.saturating_add(2 + field.len() + value_len);
    }
    if room > MOST_PACKED {
        return None;
    }
    Some(room)
}

// Makes the changes one after another.
fn change_fields(
    bytes: &mut Vec<u8>,
    changes: &[(ByteString, Option<ByteString>)],
) -> Result<(), AllocError>
    requires packed { IsPacked bytes.old.items }
    requires short { SetShortWords changes.now }
    ensures packed { OnOk result (IsPacked bytes.new.items) }
    ensures pairs { OnOk result (pairs_in bytes.new.items ≡ fields_changed (pairs_in bytes.old.items) changes.now) }
{
    for (field, value) in changes {
        change_field(bytes, field, value.as_ref())?;
    }
    Ok(())
}

// Counts the pairs.
fn counted(bytes: &[u8]) -> Count
    requires packed { IsPacked bytes.now }
    requires small { length bytes.now ≤ MOST_PACKED }
    ensures fields { result.fields ≡ length (pairs_in bytes.now) }
    ensures size { result.size ≡ size_of (pairs_in bytes.now) }
{
    let mut walk = Walk::over(bytes);
    let mut fields = 0;
    let mut size = 0;
    while let Some((field, value)) = walk.next_pair() {
        fields += 1;
        size += short_size(field) + short_size(value);
    }
    Count { fields, size }
}
