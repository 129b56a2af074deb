//! Few pairs in a list, which a walk over all of them finds.
ghost use Rattle.std.specs.Prelude.{◌≡◌, ◌<◌, ◌≤◌, ◌++◌, ◌∷◌, [], length, nat_eq, position, count_by, slice_index_or, vec_len, vec_capacity, Some, None, IfSome, OnOk, OnErr};
ghost use Rattle.std.specs.Cmp.Lexicographic.{pointwise};
ghost use Rattle.std.specs.Option.{option_copied};
ghost use Rattle.hash.specs.Pairs.{value_of, field_changed, field_set};
ghost use Rattle.hash.specs.Entries.{value_replaced, is_of, is_new};

use byte_string::ByteString;
use std::alloc::AllocError;
use std::mem;

/// The value of the field.
pub fn value_in<'a>(
    pairs: &'a [(ByteString, ByteString)],
    field: &ByteString,
) -> Option<&'a ByteString>
    ensures { option_copied result ≡ value_of pairs.now field.now }
{
    let place = place_of(pairs, field)?;
    Some(&pairs[place].1)
}

/// How many of the changes set a field that isn't there.
pub fn count_new(
    pairs: &[(ByteString, ByteString)],
    changes: &[(ByteString, Option<ByteString>)],
) -> usize
    ensures { result ≡ count_by (is_new pairs.now) changes.now }
{
    changes
        .iter()
        .filter(|(field, value)| is_new(pairs, field, value.as_ref()))
        .count()
}

fn is_new(
    pairs: &[(ByteString, ByteString)],
    field: &ByteString,
    value: Option<&ByteString>,
) -> bool
    ensures { result ≡ is_new pairs.now (field.now, option_copied value.entry) }
{
    value.is_some() && value_in(pairs, field).is_none()
}

/// Sets the field, for which there is room, and gives back the value that it had.
pub fn set(
    pairs: &mut Vec<(ByteString, ByteString)>,
    field: ByteString,
    value: ByteString,
) -> Option<ByteString>
    requires { length (field_set pairs.old.items field value) ≤ vec_capacity pairs.old }
    ensures old { result ≡ value_of pairs.old.items field }
    ensures pairs { pairs.new.items ≡ field_set pairs.old.items field value }
    ensures capacity { vec_capacity pairs.old ≤ vec_capacity pairs.new }
{
    match place_of(pairs.as_slice(), &field) {
        Some(place) => Some(replace_at(pairs, place, value)),
        None => {
            append(pairs, field, value);
            None
        }
    }
}

/// Removes the field, and gives back the value that it had. The others keep their order.
pub fn remove(pairs: &mut Vec<(ByteString, ByteString)>, field: &ByteString) -> Option<ByteString>
    ensures old { result ≡ value_of pairs.old.items field.now }
    ensures pairs { pairs.new.items ≡ field_changed pairs.old.items field.now None }
    ensures capacity { vec_capacity pairs.new ≡ vec_capacity pairs.old }
{
    let place = place_of(pairs.as_slice(), field)?;
    Some(pairs.remove(place).1)
}

/// The place of the field.
pub fn place_of(pairs: &[(ByteString, ByteString)], field: &ByteString) -> Option<usize>
    ensures place { result ≡ position (is_of field.now) pairs.now }
    ensures within { IfSome result (λ place. place < length pairs.now) }
{
    pairs.iter().position(|(other, _)| field == other)
}

/// Puts the value into the pair at the place, and gives back the one that was there.
pub fn replace_at(
    pairs: &mut Vec<(ByteString, ByteString)>,
    place: usize,
    value: ByteString,
) -> ByteString
    requires { place < length pairs.old.items }
    ensures old { result ≡ (slice_index_or pairs.old.items place ([], result)).1 }
    ensures pairs { pairs.new.items ≡ value_replaced pairs.old.items place value }
    ensures capacity { vec_capacity pairs.new ≡ vec_capacity pairs.old }
{
    mem::replace(&mut pairs[place].1, value)
}

/// Puts a pair behind the others, with room for it alone. Where memory is refused, nothing has changed.
pub fn push(
    pairs: &mut Vec<(ByteString, ByteString)>,
    field: ByteString,
    value: ByteString,
) -> Result<(), AllocError>
    ensures pairs { OnOk result (pairs.new.items ≡ pairs.old.items ++ (field, value) ∷ []) }
    ensures err { OnErr result (pairs.new.items ≡ pairs.old.items) }
{
    pairs.reserve_exact(1)?;
    append(pairs, field, value);
    Ok(())
}

fn append(pairs: &mut Vec<(ByteString, ByteString)>, field: ByteString, value: ByteString)
    requires { length pairs.old.items < vec_capacity pairs.old }
    ensures pairs { pairs.new.items ≡ pairs.old.items ++ (field, value) ∷ [] }
    ensures capacity { vec_capacity pairs.old ≤ vec_capacity pairs.new }
{
    let Ok(()) = pairs.push((field, value)) else {
        unreachable!();
    };
}
