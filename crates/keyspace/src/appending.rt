//! Bytes that are put behind a string in place.
ghost use Rattle.std.specs.Prelude.{◌≡◌, Some, IfOk, OnOk, OnErr};
ghost use Rattle.std.specs.Option.{option_copied};
ghost use Rattle.keyspace.specs.Keyspace.{appended, keyspace_in, with_appended};

use crate::value::Value;
use byte_string::ByteString;
use key_map::KeyMap;
use std::alloc::{AllocError, Global};

/// Puts the bytes behind the string at the key, in place, unless memory is refused.
///
/// A missing string begins empty, and a hash stays.
pub fn append_in(
    alloc: Global,
    entries: &mut KeyMap<Value>,
    key: ByteString,
    bytes: ByteString,
) -> Result<(), AllocError>
    ensures ok { OnOk result (keyspace_in entries.new ≡ with_appended (keyspace_in entries.old) key bytes) }
    ensures err { OnErr result (keyspace_in entries.new ≡ keyspace_in entries.old) }
{
    let Some(value) = entries.get_mut(&key) else {
        let _none = entries.insert(key, Value::Str(bytes))?;
        return Ok(());
    };
    append_to(alloc, value, &bytes)
}

/// The value with the bytes behind it, as a copy.
pub(crate) fn appended(
    alloc: Global,
    value: Option<&Value>,
    bytes: ByteString,
) -> Result<Value, AllocError>
    ensures { IfOk result (λ left. left ≡ appended (option_copied value.entry) bytes) }
{
    let Some(value) = value else {
        return Ok(Value::Str(bytes));
    };
    let mut copy = value.clone()?;
    append_to(alloc, &mut copy, &bytes)?;
    Ok(copy)
}

fn append_to(alloc: Global, value: &mut Value, bytes: &ByteString) -> Result<(), AllocError>
    ensures ok { OnOk result (value.new ≡ appended (Some value.old) bytes.now) }
    ensures err { OnErr result (value.new ≡ value.old) }
{
    match value {
        Value::Str(string) => string.append(alloc, bytes.as_slice()),
        Value::Hash(_) => Ok(()),
    }
}
