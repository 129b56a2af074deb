//! What a hash takes, and what it would take after changes.
ghost use Rattle.std.specs.Prelude.{◌≡◌, [], ◌+◌, ◌-◌, ◌<◌, ◌≤◌, ◌^◌, length, IsOk, IfOk};
ghost use Rattle.std.specs.Option.{option_copied};
ghost use Rattle.hash.specs.Foreseen.{value_left, IsForeseen};
ghost use Rattle.hash.specs.Pairs.{fields_changed};
ghost use Rattle.hash.specs.Size.{size_of};
ghost use Rattle.hash.specs.Sized.{pair_size, count_of};

use crate::hash::Hash;
use crate::sizes::{bulk_size, bytes_size};
use crate::word::Word;
use byte_string::ByteString;
use indexmap::IndexMap;
use std::alloc::{AllocError, Global};

/// What a hash takes.
#[derive(Clone, Copy, Debug)]
pub struct Extent {
    /// How many fields it has.
    pub len: usize,
    /// How many bytes these and their values take as bulk strings.
    pub size: u128,
}

/// What the hash would take after the changes.
pub fn extent_after(
    alloc: Global,
    hash: &Hash,
    changes: &[(ByteString, Option<ByteString>)],
) -> Result<Extent, AllocError>
    ensures len { IfOk result (λ extent.
        extent.len ≡ length (fields_changed hash.now changes.now)) }
    ensures size { IfOk result (λ extent.
        extent.size ≡ size_of (fields_changed hash.now changes.now)) }
    ensures single { length changes.now ≤ 1 → IsOk result }
{
    // So few fields and changes have a size of 128 bits, however long they are.
    prove!(changes.len() < 1 << 60);
    let extent = Extent {
        len: hash.len(),
        size: hash.request_size(),
    };
    let Some((last, earlier)) = changes.split_last() else {
        return Ok(extent);
    };
    // No change asks for what the last one leaves.
    let mut left = IndexMap::new(alloc);
    let extent = extent_before_last(hash, extent, &mut left, earlier)?;
    let (field, value) = last;
    Ok(extent.changed(field, value_now(hash, &left, field), value.as_ref()))
}

// The extent after these changes, with what they leave at the fields that they name.
fn extent_before_last(
    hash: &Hash,
    extent: Extent,
    left: &mut IndexMap<ByteString, Option<ByteString>>,
    changes: &[(ByteString, Option<ByteString>)],
) -> Result<Extent, AllocError>
    requires start { IsForeseen hash.now left.old.entries [] extent }
    requires few { length hash.now < 2 ^ 63 }
    requires short { length changes.now < 2 ^ 60 }
    ensures foreseen { IfOk result (IsForeseen hash.now left.new.entries changes.now) }
    ensures none { length changes.now ≡ 0 → IsOk result }
{
    let mut extent = extent;
    for (field, value) in changes {
        extent = extent.changed(field, value_now(hash, left, field), value.as_ref());
        left.insert(field.clone()?, value.clone()?)?;
    }
    Ok(extent)
}

/// The value that a field has after changes that left these values.
fn value_now<'a>(
    hash: &'a Hash,
    left: &'a IndexMap<ByteString, Option<ByteString>>,
    field: &ByteString,
) -> Option<Word<'a>>
    ensures { result ≡ value_left hash.now left.now.entries field.now }
{
    match left.get(field) {
        Some(Some(value)) => Some(Word::string(value)),
        Some(None) => None,
        None => hash.get(field),
    }
}

impl Extent {
    /// The extent once the field has the new value in place of the old one.
    fn changed(self, field: &ByteString, old: Option<Word<'_>>, new: Option<&ByteString>) -> Extent
        requires len { count_of old ≤ self.len }
        requires size { pair_size field.now old ≤ self.size }
        requires few { self.len < 2 ^ 64 - 1 }
        requires small { self.size < 2 ^ 128 - 2 ^ 65 }
        ensures len { result.len + count_of old.entry ≡
            self.len + count_of (option_copied new.entry) }
        ensures size { result.size + pair_size field.now old.entry ≡
            self.size + pair_size field.now (option_copied new.entry) }
        ensures short { pair_size field.now (option_copied new.entry) ≤ 2 ^ 64 + 2 ^ 6 }
    {
        let field_size = bulk_size(field);
        let mut extent = self;
        if let Some(old) = old {
            extent.len -= 1;
            extent.size -= field_size + bytes_size(old.as_slice());
        }
        if let Some(new) = new {
            extent.len += 1;
            extent.size += field_size + bulk_size(new);
        }
        extent
    }
}
