//! Packed pairs that become a large hash.
ghost use Rattle.std.specs.Prelude.{◌≡◌, IfOk};
ghost use Rattle.hash.specs.Packed.{each_set};

use crate::iter::Iter;
use crate::large::Large;
use crate::packed::Packed;
use byte_string::ByteString;
use std::alloc::AllocError;

/// The same pairs, each word a string of its own.
pub fn unpacked(packed: &Packed) -> Result<Large, AllocError>
    ensures { IfOk result (λ large. large ≡ packed.now) }
{
    // No field stands twice among packed pairs.
    prove!(packed.len() < 1 << 63);
    let mut large = Large::new(packed.allocator());
    large.change(settings(packed)?)?;
    Ok(large)
}

// The changes that set each field to its value.
fn settings(packed: &Packed) -> Result<Vec<(ByteString, Option<ByteString>)>, AllocError>
    ensures { IfOk result (λ changes. changes.items ≡ each_set packed.now) }
{
    let alloc = packed.allocator();
    let mut changes = Vec::new(alloc);
    for (field, value) in Iter::over_packed(packed) {
        let value = value.to_byte_string(alloc)?;
        changes.push((field.to_byte_string(alloc)?, Some(value)))?;
    }
    Ok(changes)
}
