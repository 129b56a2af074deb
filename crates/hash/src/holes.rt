//! Removed fields that still stand in a map, as holes between the pairs that are left.
ghost use Rattle.std.specs.Prelude.{◌≡◌, ◌+◌, ◌≤◌, ◌^◌, ◌<◌, [], true, false, not, nat_eq, Some, None, IsSome, IfOk, OnOk, OnErr};
ghost use Rattle.std.specs.Cmp.Lexicographic.{pointwise};
ghost use Rattle.std.specs.Map.{set_value};
ghost use Rattle.std.specs.Option.{option_copied};
ghost use Rattle.indexmap.specs.IndexMap.{spare};
ghost use Rattle.hash.specs.Holed.{is_in, left_in, ChangesOne, SameBeside};
ghost use Rattle.hash.specs.Pairs.{value_of, HasDistinctFields};

use crate::many;
use byte_string::ByteString;
use indexmap::{IndexMap, IndexSet};
use std::alloc::AllocError;
use std::mem;

/// Whether the field is removed. Where none is, it isn't hashed.
pub fn is_removed(removed: &IndexSet<ByteString>, field: &ByteString) -> bool
    ensures { result ≡ is_in removed.now.keys field.now }
{
    !removed.is_empty() && removed.contains(field)
}

/// The value of the field, if it is left.
pub fn value_in<'a>(
    map: &'a IndexMap<ByteString, ByteString>,
    removed: &IndexSet<ByteString>,
    field: &ByteString,
) -> Option<&'a ByteString>
    ensures { option_copied result ≡ value_of (left_in map.now removed.now) field.now }
{
    if is_removed(removed, field) {
        return None;
    }
    map.get(field)
}

/// Sets the field, and gives back the value that it had. One that is removed comes last. Where memory is refused, the same
/// pairs are left.
pub fn put(
    map: &mut IndexMap<ByteString, ByteString>,
    removed: &mut IndexSet<ByteString>,
    field: ByteString,
    value: ByteString,
) -> Result<Option<ByteString>, AllocError>
    ensures old { IfOk result (λ old. old ≡ value_of (left_in map.old removed.old) field) }
    ensures pairs { OnOk result (ChangesOne map.old removed.old map.new removed.new field (Some value)) }
    ensures err { OnErr result (left_in map.new removed.new ≡ left_in map.old removed.old) }
{
    close(map, removed, &field);
    match many::put(map, field, value) {
        Ok(old) => Ok(old),
        Err(refused) => Err(refused),
    }
}

/// Sets the field, for which there is room, and gives back the value that it had. One that is removed comes last.
pub fn set(
    map: &mut IndexMap<ByteString, ByteString>,
    removed: &mut IndexSet<ByteString>,
    field: ByteString,
    value: ByteString,
) -> Option<ByteString>
    requires { 1 ≤ spare map.old }
    ensures old { result ≡ value_of (left_in map.old removed.old) field }
    ensures pairs { ChangesOne map.old removed.old map.new removed.new field (Some value) }
    ensures room { spare map.old ≤ spare map.new + 1 }
{
    close(map, removed, &field);
    many::set(map, field, value)
}

// Closes the hole that the field left, if it is removed.
fn close(
    map: &mut IndexMap<ByteString, ByteString>,
    removed: &mut IndexSet<ByteString>,
    field: &ByteString,
)
    ensures left { is_in removed.new.keys field.now ≡ false }
    ensures pairs { left_in map.new removed.new ≡ left_in map.old removed.old }
    ensures room { spare map.old ≤ spare map.new }
{
    // No field stands twice in a map.
    prove!(map.len() < 1 << 63);
    if removed.swap_remove(field) {
        map.shift_remove(field);
    }
}

/// Removes the field, and gives back the value that it had. The others keep their order.
pub fn remove(
    map: &mut IndexMap<ByteString, ByteString>,
    removed: &mut IndexSet<ByteString>,
    field: &ByteString,
) -> Option<ByteString>
    ensures old { result ≡ value_of (left_in map.old removed.old) field.now }
    ensures pairs { ChangesOne map.old removed.old map.new removed.new field.now None }
    ensures room { spare map.old ≤ spare map.new }
{
    value_in(map, removed, field)?;
    match note(removed, field) {
        Ok(()) => Some(take_value(map, field)),
        Err(_) => map.shift_remove(field),
    }
}

// Notes the field as removed, which then stays in the map as a hole.
fn note(removed: &mut IndexSet<ByteString>, field: &ByteString) -> Result<(), AllocError>
    ensures ok { OnOk result (is_in removed.new.keys field.now ≡ true) }
    ensures others { SameBeside field.now removed.old.keys removed.new.keys }
    ensures err { OnErr result (removed.new.keys ≡ removed.old.keys) }
{
    removed.insert(field.clone()?)?;
    Ok(())
}

fn take_value(map: &mut IndexMap<ByteString, ByteString>, field: &ByteString) -> ByteString
    requires { IsSome (value_of map.old.entries field.now) }
    ensures old { Some result ≡ value_of map.old.entries field.now }
    ensures distinct { HasDistinctFields map.old.entries }
    ensures pairs { map.new.entries ≡ set_value (pointwise nat_eq field.now) map.old.entries [] }
    ensures room { spare map.new ≡ spare map.old }
{
    let Some(value) = map.get_mut(field) else {
        unreachable!();
    };
    mem::replace(value, ByteString::new())
}

/// Closes all holes.
pub fn close_all(map: &mut IndexMap<ByteString, ByteString>, removed: &IndexSet<ByteString>)
    ensures pairs { map.new.entries ≡ left_in map.old removed.now }
    ensures room { spare map.old ≤ spare map.new }
{
    map.retain(
        |field: &ByteString, value: &mut ByteString| -> bool
            ensures { (result ≡ not (is_in removed.entry.now.keys field.now)) × (value.new ≡ value.old) }
        { !removed.contains(field) },
    );
}
