//! Fields of hashes that are changed in place.
ghost use Rattle.std.specs.Prelude.{◌≡◌, [], None, IfOk, OnOk, OnErr};
ghost use Rattle.std.specs.Option.{option_copied};
ghost use Rattle.std.specs.FinMap as map;
ghost use Rattle.hash.specs.Pairs.{fields_changed};
ghost use Rattle.keyspace.specs.Keyspace.{fields_left, hash_of, keyspace_in, ChangesFields, LeavesValue};

use crate::value::Value;
use byte_string::ByteString;
use hash::Hash;
use key_map::KeyMap;
use std::alloc::{AllocError, Global};

/// Fields to be changed, each with its new value, or with None where it is to be removed.
pub type FieldChanges = Vec<(ByteString, Option<ByteString>)>;

/// Changes fields of the hash at the key in place: all, or none where memory is refused.
///
/// A missing hash begins with no fields, and one that is left with none is removed. A string stays.
pub fn change_fields_in(
    entries: &mut KeyMap<Value>,
    key: ByteString,
    changes: FieldChanges,
) -> Result<(), AllocError>
    ensures ok { OnOk result (ChangesFields entries.old entries.new key changes.items) }
    ensures err { OnErr result (keyspace_in entries.new ≡ keyspace_in entries.old) }
{
    let Some(value) = entries.get_mut(&key) else {
        return put_new_hash(entries, key, changes);
    };
    if change_value(value, changes)? {
        return Ok(());
    }
    remove_from(entries, &key);
    Ok(())
}

// Makes the hash of a key that is missing.
fn put_new_hash(
    entries: &mut KeyMap<Value>,
    key: ByteString,
    changes: FieldChanges,
) -> Result<(), AllocError>
    requires { map.get (keyspace_in entries.old) key ≡ None }
    ensures ok { OnOk result (ChangesFields entries.old entries.new key changes.items) }
    ensures err { OnErr result (keyspace_in entries.new ≡ keyspace_in entries.old) }
{
    if let Some(value) = new_hash(changes)? {
        let _none = entries.insert(key, value)?;
    }
    Ok(())
}

/// Removes the key, if it is there.
pub(crate) fn remove_from(entries: &mut KeyMap<Value>, key: &ByteString)
    ensures { keyspace_in entries.new ≡ map.remove (keyspace_in entries.old) key.now }
{
    let _old = entries.remove(key);
}

// Changes the fields of a hash in place, and tells whether a value is left.
fn change_value(value: &mut Value, changes: FieldChanges) -> Result<bool, AllocError>
    ensures left { IfOk result (LeavesValue value.old value.new changes.items) }
    ensures err { OnErr result (value.new ≡ value.old) }
{
    match value {
        Value::Str(_) => Ok(true),
        Value::Hash(hash) => {
            hash.change(changes)?;
            Ok(hash.len() > 0)
        }
    }
}

/// The value once its fields are changed, as a copy.
pub(crate) fn with_changed_fields(
    value: Option<&Value>,
    changes: FieldChanges,
) -> Result<Option<Value>, AllocError>
    ensures { IfOk result (λ left. left ≡ fields_left (option_copied value.entry) changes.items) }
{
    match value {
        None => new_hash(changes),
        Some(Value::Str(bytes)) => Ok(Some(Value::Str(bytes.clone()?))),
        Some(Value::Hash(hash)) => {
            let mut copy = hash.clone()?;
            copy.change(changes)?;
            if copy.len() == 0 {
                return Ok(None);
            }
            Ok(Some(Value::Hash(copy)))
        }
    }
}

// The hash that begins with no fields, or None where it has none then.
fn new_hash(changes: FieldChanges) -> Result<Option<Value>, AllocError>
    ensures { IfOk result (λ made. made ≡ hash_of (fields_changed [] changes.items)) }
{
    let alloc = *changes.allocator();
    let mut hash = Hash::new(alloc);
    hash.change(changes)?;
    if hash.len() == 0 {
        return Ok(None);
    }
    Ok(Some(Value::Hash(hash)))
}
