//! The pairs of a small hash, packed in one block of memory.
ghost use Rattle.std.specs.Prelude.{◌≡◌, ◌<◌, ◌^◌, ◌∷◌, [], None, true, length, IfOk, OnOk, OnErr};
ghost use Rattle.hash.specs.Packed.{RemoveOnly};
ghost use Rattle.hash.specs.Pairs.{value_of, field_changed, fields_changed, set_if, changed_if, HasDistinctFields};
ghost use Rattle.hash.specs.Sized.{IsSized};

use crate::block::Block;
use crate::count::Count;
use crate::packing::place_of;
use crate::repacking::{change_all, cut_out, extend, replace};
use crate::walk::Walk;
use crate::word::Word;
use byte_string::ByteString;
use std::alloc::{AllocError, Global};
use std::marker::Model;

/// The pairs of a small hash, one behind another in one block.
pub struct Packed {
    alloc: Global,
    block: Block,
}

impl Drop for Packed {
    fn drop(self) {
        let Packed { alloc: _, block: _ } = self;
    }
}

impl Model for Packed {
    ghost use Rattle.hash.specs.Pairs.{Pairs};
    ghost use Rattle.hash.specs.Packed.{pairs_in};
    ghost use Rattle.hash.specs.Kept.{IsKept};

    ghost Value = { Pairs };

    ghost view = { λ packed. pairs_in packed.block.bytes };

    ghost invariant = { λ packed. IsKept packed.block };
}

impl Packed {
    /// No pairs. They take no memory.
    pub fn new(alloc: Global) -> Packed
        ensures { result ≡ [] }
    {
        Packed {
            alloc,
            block: Block::new(Count { fields: 0, size: 0 }),
        }
    }

    /// The allocator of the block.
    pub fn allocator(&self) -> Global {
        self.alloc
    }

    /// The number of pairs. It is kept.
    pub fn len(&self) -> usize
        ensures len { result ≡ length self.now }
        ensures small { result < 2 ^ 63 }
        ensures distinct { HasDistinctFields self.now }
    {
        self.block.count().fields as usize
    }

    /// The bytes of all pairs in a request. They are kept.
    pub fn size(&self) -> u128
        ensures { IsSized self.now result }
    {
        self.block.count().size as u128
    }

    /// The value of the field.
    pub fn get(&self, field: &ByteString) -> Option<Word<'_>>
        ensures { result ≡ value_of self.now field.now }
    {
        let bytes = self.block.as_slice();
        let place = place_of(bytes, field.as_slice())?;
        Some(Word::packed(&bytes[place.value + 1..place.end]))
    }

    /// The pairs, in order.
    pub fn walk(&self) -> Walk<'_>
        ensures pairs { result ≡ self.now }
        ensures distinct { HasDistinctFields self.now }
    {
        Walk::over(self.block.as_slice())
    }
}

impl Packed {
    /// Makes the changes one after another, and says whether they are made: pairs that would be too many or too long to be
    /// packed stay as they are.
    pub fn change(
        &mut self,
        changes: &[(ByteString, Option<ByteString>)],
    ) -> Result<bool, AllocError>
        ensures ok { IfOk result (λ is_made. self.new ≡ changed_if is_made self.old changes.now) }
        ensures err { OnErr result (self.new ≡ self.old) }
    {
        match changes {
            [change] => self.change_one(change),
            _ if remove_only(changes) => {
                self.remove_each(changes);
                Ok(true)
            }
            _ => change_all(self.alloc, &mut self.block, changes),
        }
    }

    // Sets or removes one field. A removal never fails.
    fn change_one(&mut self, change: &(ByteString, Option<ByteString>)) -> Result<bool, AllocError>
        ensures ok { IfOk result (λ is_made. self.new ≡ changed_if is_made self.old (change.now ∷ [])) }
        ensures err { OnErr result (self.new ≡ self.old) }
    {
        let (field, value) = change;
        match value {
            Some(value) => self.set(field, value),
            None => {
                self.remove(field);
                self.shrink();
                Ok(true)
            }
        }
    }

    // Sets one field. A value that keeps its length is written over the old one, and takes no memory.
    fn set(&mut self, field: &ByteString, value: &ByteString) -> Result<bool, AllocError>
        ensures ok { IfOk result (λ is_made. self.new ≡ set_if is_made self.old field.now value.now) }
        ensures err { OnErr result (self.new ≡ self.old) }
    {
        let (field, value) = (field.as_slice(), value.as_slice());
        match place_of(self.block.as_slice(), field) {
            Some(place) if place.end - (place.value + 1) == value.len() => {
                self.block.write(place.value + 1, value);
                Ok(true)
            }
            Some(place) => replace(self.alloc, &mut self.block, place, field, value),
            None => extend(self.alloc, &mut self.block, field, value),
        }
    }

    // Removes the field of each change. The block is left for a smaller one where there is memory for it, so that a removal
    // never fails.
    fn remove_each(&mut self, changes: &[(ByteString, Option<ByteString>)])
        requires { RemoveOnly changes.now }
        ensures { self.new ≡ fields_changed self.old changes.now }
    {
        for (field, _) in changes {
            self.remove(field);
        }
        self.shrink();
    }

    fn remove(&mut self, field: &ByteString)
        ensures { self.new ≡ field_changed self.old field.now None }
    {
        let field = field.as_slice();
        if let Some(place) = place_of(self.block.as_slice(), field) {
            cut_out(&mut self.block, place, field);
        }
    }

    fn shrink(&mut self)
        ensures { self.new ≡ self.old }
    {
        let (bytes, count) = (self.block.as_slice(), self.block.count());
        if let Ok(block) = Block::copied(self.alloc, bytes, count) {
            self.block = block;
        }
    }
}

impl Clone for Packed {
    ghost is_clone = { λ packed copy. copy ≡ packed };

    fn clone(&self) -> Result<Packed, AllocError> {
        let block = &self.block;
        Ok(Packed {
            alloc: self.alloc,
            block: Block::copied(self.alloc, block.as_slice(), block.count())?,
        })
    }
}

// Whether no field is set.
fn remove_only(changes: &[(ByteString, Option<ByteString>)]) -> bool
    ensures { result ≡ true → RemoveOnly changes.now }
{
    for (_, value) in changes {
        if value.is_some() {
            return false;
        }
    }
    true
}
