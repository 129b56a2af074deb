//! The values of keys, and the request that makes a key with its value.
ghost use Rattle.std.specs.Prelude.{◌≡◌, ◌++◌, ◌∷◌, [], codes, IfOk};
ghost use Rattle.hash.specs.Size.{words_of};
ghost use Rattle.keyspace.specs.Rebuild.{Rebuilds};
ghost use Rattle.keyspace.specs.Rebuilding.{rebuilding};
ghost use Rattle.resp_values.specs.Request.{IsRequest};

use byte_string::ByteString;
use hash::Hash;
use resp_values::Words;
use std::alloc::{AllocError, Global};

/// The value of a key.
#[derive(Debug, Drop)]
pub enum Value {
    /// A string: any bytes.
    Str(ByteString),
    /// A hash: fields with their values, in the order in which the fields came. One without fields is kept at no key.
    Hash(Hash),
}

impl Clone for Value {
    ghost is_clone = { λ value copy. copy ≡ value };

    fn clone(&self) -> Result<Value, AllocError> {
        match self {
            Value::Str(bytes) => Ok(Value::Str(bytes.clone()?)),
            Value::Hash(hash) => Ok(Value::Hash(hash.clone()?)),
        }
    }
}

/// The request that makes this key with this value where the key is not there. Its words share long strings with both.
pub fn rebuild(alloc: Global, key: &ByteString, value: &Value) -> Result<Words, AllocError>
    requires { IsRequest (rebuilding key.now value.now) }
    ensures { IfOk result (λ words. words ≡ rebuilding key.now value.now) }
{
    let items = rebuilding_words(alloc, key, value)?;
    Ok(Words::new(items).unwrap())
}

// Its words, which may be more or longer than those of a request that a server takes.
fn rebuilding_words(
    alloc: Global,
    key: &ByteString,
    value: &Value,
) -> Result<Vec<ByteString>, AllocError>
    ensures { IfOk result (λ words. words.items ≡ rebuilding key.now value.now) }
{
    match value {
        Value::Str(bytes) => {
            let name = ByteString::inline(b"SET");
            Ok(vec![in alloc; name, key.clone()?, bytes.clone()?]?)
        }
        Value::Hash(hash) => setting_words(alloc, key, hash),
    }
}

// HSET, the key, and the pairs.
fn setting_words(
    alloc: Global,
    key: &ByteString,
    hash: &Hash,
) -> Result<Vec<ByteString>, AllocError>
    ensures { IfOk result (λ words. words.items ≡ codes "HSET" ∷ key.now ∷ words_of hash.now) }
{
    let name = ByteString::inline(b"HSET");
    let mut words = vec![in alloc; name, key.clone()?]?;
    hash.append_words(&mut words)?;
    Ok(words)
}

/// Executed on no key, the request of `rebuild` makes its key with its value, and no other key.
pub fn rebuilding_makes_the_key()
    ensures { Rebuilds }
{}
