//! A hash that is too large to be packed.
ghost use Rattle.std.specs.Prelude.{◌≡◌, ◌<◌, ◌^◌, [], length, OnOk, OnErr};
ghost use Rattle.std.specs.Option.{option_copied};
ghost use Rattle.hash.specs.Pairs.{value_of, fields_changed, HasDistinctFields};
ghost use Rattle.hash.specs.Sized.{IsSized};

use crate::changing::{change_fields, change_one};
use crate::entries::Entries;
use crate::iter::Iter;
use byte_string::ByteString;
use std::alloc::{AllocError, Global};
use std::marker::Model;

/// Fields with their values, each a string of its own.
pub struct Large {
    entries: Entries,
    /// The bytes of all pairs in a request. Long strings are shared, so that their sum may pass what memory holds.
    size: u128,
}

impl Model for Large {
    ghost use Rattle.hash.specs.Pairs.{Pairs};
    ghost use Rattle.hash.specs.Entries.{pairs_of};
    ghost use Rattle.hash.specs.Sized.{IsSized};

    ghost Value = { Pairs };

    ghost view = { λ large. pairs_of large.entries };

    ghost invariant = { λ large. IsSized (pairs_of large.entries) large.size };
}

impl Drop for Large {
    fn drop(self) {
        let Large {
            entries: _,
            size: _,
        } = self;
    }
}

impl Large {
    /// A hash with no fields. It takes no memory before its first field.
    pub fn new(alloc: Global) -> Large
        ensures { result ≡ [] }
    {
        Large {
            entries: Entries::new(alloc),
            size: 0,
        }
    }

    /// The number of fields.
    pub fn len(&self) -> usize
        ensures len { result ≡ length self.now }
        ensures small { result < 2 ^ 63 }
        ensures distinct { HasDistinctFields self.now }
    {
        self.entries.len()
    }

    /// The value of the field.
    pub fn get(&self, field: &ByteString) -> Option<&ByteString>
        ensures { option_copied result ≡ value_of self.now field.now }
    {
        self.entries.get(field)
    }

    /// The fields with their values, in order.
    pub fn iter(&self) -> Iter<'_>
        ensures { result ≡ self.now }
    {
        self.entries.iter()
    }

    /// The bytes of all pairs in a request. It is kept, and not counted anew.
    pub fn size(&self) -> u128
        ensures { IsSized self.now result }
    {
        self.size
    }

    /// Makes the changes one after another, or none where memory is refused.
    pub fn change(
        &mut self,
        changes: Vec<(ByteString, Option<ByteString>)>,
    ) -> Result<(), AllocError>
        ensures ok { OnOk result (self.new ≡ fields_changed self.old changes.items) }
        ensures err { OnErr result (self.new ≡ self.old) }
    {
        let mut changes = changes;
        if changes.len() > 1 {
            self.entries.make_room(changes.as_slice())?;
            change_fields(&mut self.entries, &mut self.size, changes);
            return Ok(());
        }
        match changes.pop() {
            Some((field, value)) => change_one(&mut self.entries, &mut self.size, field, value),
            None => Ok(()),
        }
    }
}

impl Clone for Large {
    ghost is_clone = { λ large copy. copy ≡ large };

    fn clone(&self) -> Result<Large, AllocError> {
        Ok(Large {
            entries: self.entries.clone()?,
            size: self.size,
        })
    }
}
