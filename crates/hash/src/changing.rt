//! Fields that are set and removed in place.
ghost use Rattle.std.specs.Prelude.{◌≡◌, ◌∷◌, [], Some, None, OnOk, OnErr};
ghost use Rattle.hash.specs.Entries.{pairs_of, IsReadyFor, StaysReady};
ghost use Rattle.hash.specs.Pairs.{field_changed, field_set, fields_changed};
ghost use Rattle.hash.specs.Sized.{IsSized};

use crate::entries::Entries;
use crate::sizes::bulk_size;
use byte_string::ByteString;
use std::alloc::AllocError;

/// Makes the changes one after another, where there is room for all of them.
pub fn change_fields(
    entries: &mut Entries,
    size: &mut u128,
    changes: Vec<(ByteString, Option<ByteString>)>,
)
    requires ready { IsReadyFor entries.old changes.items }
    requires sized { IsSized (pairs_of entries.old) size.old }
    ensures pairs { pairs_of entries.new ≡ fields_changed (pairs_of entries.old) changes.items }
    ensures sized { IsSized (pairs_of entries.new) size.new }
{
    for (field, value) in changes {
        change_field(entries, size, field, value);
    }
}

/// Makes one change, or none where memory is refused.
pub fn change_one(
    entries: &mut Entries,
    size: &mut u128,
    field: ByteString,
    value: Option<ByteString>,
) -> Result<(), AllocError>
    requires { IsSized (pairs_of entries.old) size.old }
    ensures pairs { OnOk result (pairs_of entries.new ≡ field_changed (pairs_of entries.old) field value) }
    ensures err { OnErr result (pairs_of entries.new ≡ pairs_of entries.old) }
    ensures sized { IsSized (pairs_of entries.new) size.new }
{
    match value {
        Some(value) => put_field(entries, size, field, value),
        None => {
            remove_field(entries, size, &field);
            Ok(())
        }
    }
}

fn put_field(
    entries: &mut Entries,
    size: &mut u128,
    field: ByteString,
    value: ByteString,
) -> Result<(), AllocError>
    requires { IsSized (pairs_of entries.old) size.old }
    ensures pairs { OnOk result (pairs_of entries.new ≡ field_set (pairs_of entries.old) field value) }
    ensures err { OnErr result (pairs_of entries.new ≡ pairs_of entries.old) }
    ensures sized { IsSized (pairs_of entries.new) size.new }
{
    // So few fields have a size of 128 bits, however long they are.
    prove!(entries.len() < 1 << 63);
    let field_bytes = bulk_size(&field);
    let value_bytes = bulk_size(&value);
    let before = entries.put(field, value)?;
    match before {
        Some(old) => *size = *size - bulk_size(&old) + value_bytes,
        None => *size += field_bytes + value_bytes,
    }
    Ok(())
}

fn change_field(
    entries: &mut Entries,
    size: &mut u128,
    field: ByteString,
    value: Option<ByteString>,
)
    requires ready { IsReadyFor entries.old ((field, value) ∷ []) }
    requires sized { IsSized (pairs_of entries.old) size.old }
    ensures pairs { pairs_of entries.new ≡ field_changed (pairs_of entries.old) field value }
    ensures ready { StaysReady entries.old entries.new (field, value) }
    ensures sized { IsSized (pairs_of entries.new) size.new }
{
    match value {
        Some(value) => set_field(entries, size, field, value),
        None => remove_field(entries, size, &field),
    }
}

fn set_field(entries: &mut Entries, size: &mut u128, field: ByteString, value: ByteString)
    requires ready { IsReadyFor entries.old ((field, Some value) ∷ []) }
    requires sized { IsSized (pairs_of entries.old) size.old }
    ensures pairs { pairs_of entries.new ≡ field_set (pairs_of entries.old) field value }
    ensures ready { StaysReady entries.old entries.new (field, Some value) }
    ensures sized { IsSized (pairs_of entries.new) size.new }
{
    // So few fields have a size of 128 bits, however long they are.
    prove!(entries.len() < 1 << 63);
    let field_size = bulk_size(&field);
    let value_size = bulk_size(&value);
    match entries.set(field, value) {
        Some(old) => *size = *size - bulk_size(&old) + value_size,
        None => *size += field_size + value_size,
    }
}

fn remove_field(entries: &mut Entries, size: &mut u128, field: &ByteString)
    requires { IsSized (pairs_of entries.old) size.old }
    ensures pairs { pairs_of entries.new ≡ field_changed (pairs_of entries.old) field.now None }
    ensures ready { StaysReady entries.old entries.new (field.now, None) }
    ensures sized { IsSized (pairs_of entries.new) size.new }
{
    if let Some(old) = entries.remove(field) {
        let field_size = bulk_size(field);
        let value_size = bulk_size(&old);
        *size -= field_size + value_size;
    }
}
