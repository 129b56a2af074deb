//! Many pairs in a map, which finds one by the hash of its field.
ghost use Rattle.std.specs.Prelude.{◌≡◌, ◌+◌, ◌≤◌, [], length, nat_eq, Some, IfOk, OnOk, OnErr};
ghost use Rattle.std.specs.Cmp.Lexicographic.{pointwise};
ghost use Rattle.indexmap.specs.IndexMap.{insert_all, spare};
ghost use Rattle.hash.specs.Pairs.{value_of, field_changed};

use byte_string::ByteString;
use indexmap::IndexMap;
use std::alloc::{AllocError, Global};

/// A map with room for so many pairs.
pub fn with_room(
    alloc: Global,
    room: usize,
) -> Result<Box<IndexMap<ByteString, ByteString>>, AllocError>
    ensures empty { IfOk result (λ map. map.value.entries ≡ []) }
    ensures room { IfOk result (λ map. room ≤ spare map.value) }
{
    let map = IndexMap::with_capacity(alloc, room)?;
    Box::new(alloc, map).map_err(AllocError::from)
}

/// Moves the pairs into a map that has room for them, one after another.
pub fn fill(map: &mut IndexMap<ByteString, ByteString>, pairs: Vec<(ByteString, ByteString)>)
    requires { length pairs.items ≤ spare map.old }
    ensures pairs { map.new.entries ≡ insert_all (pointwise nat_eq) map.old.entries pairs.items }
    ensures room { spare map.old ≤ spare map.new + length pairs.items }
{
    for (field, value) in pairs {
        let _none = set(map, field, value);
    }
}

/// Sets the field, for which there is room, and gives back the value that it had.
pub fn set(
    map: &mut IndexMap<ByteString, ByteString>,
    field: ByteString,
    value: ByteString,
) -> Option<ByteString>
    requires { 1 ≤ spare map.old }
    ensures old { result ≡ value_of map.old.entries field }
    ensures pairs { map.new.entries ≡ field_changed map.old.entries field (Some value) }
    ensures room { spare map.old ≤ spare map.new + 1 }
{
    let Ok(old) = map.insert(field, value) else {
        unreachable!();
    };
    old
}

/// Sets the field, and gives back the value that it had. Where memory is refused, nothing has changed.
pub fn put(
    map: &mut IndexMap<ByteString, ByteString>,
    field: ByteString,
    value: ByteString,
) -> Result<Option<ByteString>, AllocError>
    ensures old { IfOk result (λ old. old ≡ value_of map.old.entries field) }
    ensures pairs { OnOk result (map.new.entries ≡ field_changed map.old.entries field (Some value)) }
    ensures err { OnErr result (map.new.entries ≡ map.old.entries) }
{
    map.insert(field, value).map_err(AllocError::from)
}
