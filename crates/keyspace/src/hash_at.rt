//! The hash at a key. A missing one has no fields.
ghost use Rattle.std.specs.Prelude.{◌≡◌, ◌<◌, ◌^◌, Some, None, length, IfOk, IfErr};
ghost use Rattle.std.specs.Option.{option_copied};
ghost use Rattle.hash.specs.Pairs.{HasDistinctFields, value_of};
ghost use Rattle.hash.specs.Size.{size_of};
ghost use Rattle.keyspace.specs.Hashes.{fields_after, fields_in, fields_of};

use crate::value::Value;
use byte_string::ByteString;
use command_table::ErrorLine;
use hash::{Extent, Hash, Word};
use std::alloc::{AllocError, Global};

/// The hash, or None where it is missing. A string is refused.
pub fn hash_in(value: Option<&Value>) -> Result<Option<&Hash>, ErrorLine>
    ensures ok { IfOk result (λ hash. fields_of (option_copied value.entry) ≡ Some (fields_in hash)) }
    ensures wrong { IfErr result (λ fault. fault ≡ ErrorLine.WrongType) }
    ensures err { IfErr result (λ fault. fields_of (option_copied value.entry) ≡ None) }
{
    match value {
        None => Ok(None),
        Some(Value::Hash(hash)) => Ok(Some(hash)),
        Some(Value::Str(_)) => Err(ErrorLine::WrongType),
    }
}

/// The value of the field.
pub fn value_in<'a>(hash: Option<&'a Hash>, field: &ByteString) -> Option<Word<'a>>
    ensures { result ≡ value_of (fields_in hash.entry) field.now }
{
    match hash {
        Some(hash) => hash.get(field),
        None => None,
    }
}

/// The number of fields.
pub fn len_of(hash: Option<&Hash>) -> usize
    ensures len { result ≡ length (fields_in hash.entry) }
    ensures small { result < 2 ^ 63 }
    ensures distinct { HasDistinctFields (fields_in hash.entry) }
{
    match hash {
        Some(hash) => hash.len(),
        None => 0,
    }
}

/// What the hash takes after the changes, which aren't made.
pub fn extent_after(
    alloc: Global,
    hash: Option<&Hash>,
    changes: &[(ByteString, Option<ByteString>)],
) -> Result<Extent, AllocError>
    ensures len { IfOk result (λ extent. extent.len ≡ length (fields_after hash.entry changes.now)) }
    ensures size { IfOk result (λ extent. extent.size ≡ size_of (fields_after hash.entry changes.now)) }
{
    match hash {
        Some(hash) => hash.extent_after(alloc, changes),
        None => Hash::new(alloc).extent_after(alloc, changes),
    }
}
