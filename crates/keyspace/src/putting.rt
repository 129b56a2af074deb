//! Values that are put at several keys: all of them, or none.
ghost use Rattle.std.specs.Prelude.{◌≡◌, ◌<◌, ◌∷◌, ◌++◌, [], vec_len, vec_capacity, IfOk, IsOk, OnOk, OnErr};
ghost use Rattle.std.specs.FinMap as map;
ghost use Rattle.keyspace.specs.Changes.{change_each};
ghost use Rattle.keyspace.specs.Commit.{AddsNoKey, AddNoKeys};
ghost use Rattle.keyspace.specs.Keyspace.{changed};
ghost use Rattle.keyspace.specs.Putting.{string_pairs, with_pairs};

use crate::store::Store;
use crate::value::Value;
use byte_string::ByteString;
use command_table::{PairList, split_pair};
use std::alloc::{AllocError, Global};

/// Keys, each with the value that it gets. Of a repeated key the last value stays.
pub type ValuePairs = Vec<(ByteString, Value)>;

// What keys had before values were put there, in the order in which these were put.
type Former = Vec<(ByteString, Option<Value>)>;

/// Copies of the pairs, which stay when their request is gone.
pub fn copied_pairs(alloc: Global, pairs: &PairList) -> Result<ValuePairs, AllocError>
    ensures { IfOk result (λ copied. copied.items ≡ string_pairs pairs.now) }
{
    let mut rest = pairs.words();
    let mut copied = Vec::with_capacity(alloc, rest.len() / 2)?;
    while let Some((key, value, others)) = split_pair(rest) {
        copied.push((key.clone()?, Value::Str(value.clone()?)))?;
        rest = others;
    }
    Ok(copied)
}

/// Puts the values, or none of them where an allocation fails. It walks down the store once for each.
///
/// What each key had before is kept until all values are put, and is put back where an allocation fails.
pub(crate) fn put_pairs<S: Store>(
    alloc: Global,
    store: &mut S,
    pairs: ValuePairs,
) -> Result<(), AllocError>
    ensures ok { OnOk result (S.contents store.new ≡ with_pairs (S.contents store.old) pairs.items) }
    ensures err { OnErr result (S.contents store.new ≡ S.contents store.old) }
{
    let mut former = Vec::with_capacity(alloc, pairs.len())?;
    for (key, value) in pairs {
        if let Err(refused) = put_pair(store, &mut former, key, value) {
            restore(store, former);
            return Err(refused);
        }
    }
    Ok(())
}

// Puts the value, and keeps what the key had. There is room for that.
fn put_pair<S: Store>(
    store: &mut S,
    former: &mut Former,
    key: ByteString,
    value: Value,
) -> Result<(), AllocError>
    requires { vec_len former.old < vec_capacity former.old }
    ensures ok { OnOk result (S.contents store.new ≡ map.insert (S.contents store.old) key value) }
    ensures former { OnOk result (
        former.new.items ≡ former.old.items ++ (key, map.get (S.contents store.old) key) ∷ []) }
    ensures room { vec_capacity former.new ≡ vec_capacity former.old }
    ensures err { OnErr result (S.contents store.new ≡ S.contents store.old) }
    ensures unchanged { OnErr result (former.new.items ≡ former.old.items) }
{
    let copy = key.clone()?;
    let old = store.insert(key, value)?;
    former.push_reserved((copy, old));
    Ok(())
}

// Puts back what the keys had, from the last one on. An insert over a key that is there can't fail.
fn restore<S: Store>(store: &mut S, mut former: Former)
    requires { AddNoKeys (S.contents store.old) former.items }
    ensures { S.contents store.new ≡ change_each (S.contents store.old) former.items }
{
    while let Some((key, old)) = former.pop() {
        let restored = change_key(store, key, old);
        prove!(restored.is_ok());
    }
}

/// Puts the value at the key, or removes the key. Only a new key can be refused.
pub(crate) fn change_key<S: Store>(
    store: &mut S,
    key: ByteString,
    change: Option<Value>,
) -> Result<(), AllocError>
    ensures ok { OnOk result (S.contents store.new ≡ changed (S.contents store.old) key change) }
    ensures err { OnErr result (S.contents store.new ≡ S.contents store.old) }
    ensures over { AddsNoKey (S.contents store.old) key change → IsOk result }
{
    match change {
        Some(value) => {
            let _old = store.insert(key, value)?;
        }
        None => store.remove(&key),
    }
    Ok(())
}
