//! Packed bytes that are copied with a change.
ghost use Rattle.std.specs.Prelude.{◌≡◌, ◌≤◌, ◌++◌, length, IfOk, OnOk};
ghost use Rattle.hash.specs.Bytes.{spliced};
ghost use Rattle.hash.specs.Packed.{word_packed, pair_packed, IsShortWord};

use std::alloc::{AllocError, Global};

/// The bytes with a pair behind them.
pub fn with_pair(
    alloc: Global,
    bytes: &[u8],
    field: &[u8],
    value: &[u8],
) -> Result<Vec<u8>, AllocError>
    requires field { IsShortWord field.now }
    requires value { IsShortWord value.now }
    ensures { IfOk result (λ after. after.items ≡ bytes.now ++ pair_packed field.now value.now) }
{
    let room = bytes.len().saturating_add(2 + field.len() + value.len());
    let mut after = Vec::with_capacity(alloc, room)?;
    after.extend_from_slice(bytes)?;
    push_word(&mut after, field)?;
    push_word(&mut after, value)?;
    Ok(after)
}

/// The bytes with the word in place of those from the one place to the other.
pub fn with_word(
    alloc: Global,
    bytes: &[u8],
    from: usize,
    to: usize,
    word: &[u8],
) -> Result<Vec<u8>, AllocError>
    requires from { from ≤ to }
    requires to { to ≤ length bytes.now }
    requires short { IsShortWord word.now }
    ensures { IfOk result (λ after. after.items ≡ spliced bytes.now from to (word_packed word.now)) }
{
    let room = (bytes.len() - (to - from)).saturating_add(1 + word.len());
    let mut after = Vec::with_capacity(alloc, room)?;
    after.extend_from_slice(&bytes[..from])?;
    push_word(&mut after, word)?;
    after.extend_from_slice(&bytes[to..])?;
    Ok(after)
}

/// Puts the word behind the bytes.
pub fn push_word(bytes: &mut Vec<u8>, word: &[u8]) -> Result<(), AllocError>
    requires { IsShortWord word.now }
    ensures { OnOk result (bytes.new.items ≡ bytes.old.items ++ word_packed word.now) }
{
    bytes.push(word.len() as u8)?;
    bytes.extend_from_slice(word)
}
