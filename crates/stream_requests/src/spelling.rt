//! Requests as the bytes that stand behind a stream.
ghost use Rattle.std.specs.Prelude.{◌≡◌, ◌++◌, IfOk, OnOk, map};
ghost use Rattle.std.specs.List.{flat_map};
ghost use Rattle.hash.specs.Size.{words_of};
ghost use Rattle.node_step.specs.Streams.{deletion};
ghost use Rattle.resp2.specs.Stream.{stream_spelling};
ghost use Rattle.stream_requests.specs.Spelling.{deletion_bytes, deletion_if, hset_bytes, making_bytes, rebuilt_bytes, set_bytes};
ghost use Rattle.resp_values.specs.Request.{bulks_spelling, request_spelling};

use byte_string::ByteString;
use hash::Hash;
use keyspace::Value;
use resp2::{append_command, append_count, append_request, append_word};
use std::alloc::{AllocError, Global};
use std::slice;

/// The bytes of a request of these words.
pub fn request_bytes(alloc: Global, words: &[ByteString]) -> Result<Vec<u8>, AllocError>
    ensures { IfOk result (λ bytes. bytes.items ≡ request_spelling words.now) }
{
    let mut bytes = Vec::new(alloc);
    append_request(words, &mut bytes)?;
    Ok(bytes)
}

/// Appends the request that makes the key with this value, after the deletion of the key if it is there.
#[tactic(auto, using(crate::proofs::SpellingLemmas::rebuilt_behind))]
pub(crate) fn append_rebuilding(
    key: &ByteString,
    value: &Value,
    is_there: bool,
    out: &mut Vec<u8>,
) -> Result<(), AllocError>
    ensures { OnOk result (out.new.items ≡ out.old.items ++ rebuilt_bytes is_there key.now value.now) }
{
    append_deletion_if(is_there, key, out)?;
    append_making(key, value, out)
}

// The request that makes the key.
fn append_making(key: &ByteString, value: &Value, out: &mut Vec<u8>) -> Result<(), AllocError>
    ensures { OnOk result (out.new.items ≡ out.old.items ++ making_bytes key.now value.now) }
{
    match value {
        Value::Str(string) => append_setting(key, string, out),
        Value::Hash(hash) => append_setting_fields(key, hash, out),
    }
}

// SET, the key, and the string.
#[tactic(auto, using(crate::proofs::SpellingLemmas::string_spelled))]
fn append_setting(
    key: &ByteString,
    string: &ByteString,
    out: &mut Vec<u8>,
) -> Result<(), AllocError>
    ensures { OnOk result (out.new.items ≡ out.old.items ++ set_bytes key.now string.now) }
{
    append_count(3, out)?;
    append_word(b"SET", out)?;
    append_word(key.as_slice(), out)?;
    append_word(string.as_slice(), out)
}

// HSET, the key, and each field with its value.
#[tactic(auto, using(crate::proofs::SpellingLemmas::hash_spelled))]
fn append_setting_fields(key: &ByteString, hash: &Hash, out: &mut Vec<u8>) -> Result<(), AllocError>
    ensures { OnOk result (out.new.items ≡ out.old.items ++ hset_bytes key.now hash.now) }
{
    let words = (2 * hash.len()).checked_add(2).ok_or(AllocError)?;
    append_count(words, out)?;
    append_word(b"HSET", out)?;
    append_word(key.as_slice(), out)?;
    append_fields(hash, out)
}

fn append_fields(hash: &Hash, out: &mut Vec<u8>) -> Result<(), AllocError>
    ensures { OnOk result (out.new.items ≡ out.old.items ++ bulks_spelling (words_of hash.now)) }
{
    for (field, value) in hash.iter() {
        append_word(field.as_slice(), out)?;
        append_word(value.as_slice(), out)?;
    }
    Ok(())
}

#[tactic(auto, using(crate::proofs::SpellingLemmas::none_behind))]
fn append_deletion_if(is_there: bool, key: &ByteString, out: &mut Vec<u8>) -> Result<(), AllocError>
    ensures { OnOk result (out.new.items ≡ out.old.items ++ deletion_if is_there key.now) }
{
    if is_there {
        return append_deletion(key, out);
    }
    Ok(())
}

/// The bytes of the deletions of these keys.
#[tactic(auto, using(crate::proofs::SpellingLemmas::deletions_spelled))]
pub fn deletions_bytes(alloc: Global, keys: &[ByteString]) -> Result<Vec<u8>, AllocError>
    ensures { IfOk result (λ bytes. bytes.items ≡ stream_spelling (map deletion keys.now)) }
{
    let mut bytes = Vec::new(alloc);
    append_deletions(keys, &mut bytes)?;
    Ok(bytes)
}

fn append_deletions(keys: &[ByteString], out: &mut Vec<u8>) -> Result<(), AllocError>
    ensures { OnOk result (out.new.items ≡ out.old.items ++ flat_map deletion_bytes keys.now) }
{
    for key in keys {
        append_deletion(key, out)?;
    }
    Ok(())
}

fn append_deletion(key: &ByteString, out: &mut Vec<u8>) -> Result<(), AllocError>
    ensures { OnOk result (out.new.items ≡ out.old.items ++ deletion_bytes key.now) }
{
    append_command(b"DEL", slice::from_ref(key), out)
}
