//! Many pairs in a map with holes: removed fields stay in it until a walk over all is worth its cost.
ghost use Rattle.std.specs.Prelude.{◌≡◌, ◌+◌, ◌<◌, ◌≤◌, ◌^◌, length, Some, IfOk, OnOk, OnErr};
ghost use Rattle.std.specs.Option.{option_copied};
ghost use Rattle.indexmap.specs.IndexMap.{spare};
ghost use Rattle.hash.specs.Pairs.{value_of, field_changed};

use crate::holes;
use crate::iter::Iter;
use byte_string::ByteString;
use indexmap::{IndexMap, IndexSet};
use std::alloc::{AllocError, Global};
use std::marker::Model;
use std::mem;

/// Pairs in the order in which their fields came, of which any can be removed without moving the others.
#[derive(Drop)]
pub struct Holed {
    map: IndexMap<ByteString, ByteString>,
    /// Fields of the map that are removed. Their values there are empty.
    removed: IndexSet<ByteString>,
    /// How many pairs of the map are left.
    len: usize,
}

impl Model for Holed {
    ghost use Rattle.std.specs.Prelude.{◌≡◌, length};
    ghost use Rattle.indexmap.specs.IndexMap.{spare};
    ghost use Rattle.hash.specs.Holed.{Left, left_of};

    ghost Value = { Left };

    ghost view = { λ holed. record { pairs = left_of holed.map.entries holed.removed.keys; room = spare holed.map } };

    ghost invariant = { λ holed. holed.len ≡ length (left_of holed.map.entries holed.removed.keys) };
}

impl Holed {
    /// Moves the pairs out of the map, which is empty then. Where memory is refused, nothing has changed.
    pub fn of(map: &mut IndexMap<ByteString, ByteString>) -> Result<Box<Holed>, AllocError>
        ensures pairs { IfOk result (λ holed. holed.value.pairs ≡ map.old.entries) }
        ensures room { IfOk result (λ holed. holed.value.room ≡ spare map.old) }
        ensures err { OnErr result (map.new ≡ map.old) }
    {
        let alloc = *map.allocator();
        let mut holed = Box::new(alloc, Holed::over(alloc, IndexMap::new(alloc)))?;
        *holed = Holed::over(alloc, mem::replace(map, IndexMap::new(alloc)));
        Ok(holed)
    }

    fn over(alloc: Global, map: IndexMap<ByteString, ByteString>) -> Holed
        ensures pairs { result.pairs ≡ map.entries }
        ensures room { result.room ≡ spare map }
    {
        let len = map.len();
        Holed {
            map,
            removed: IndexSet::new(alloc),
            len,
        }
    }

    /// The number of pairs.
    pub fn len(&self) -> usize
        ensures len { result ≡ length self.now.pairs }
        ensures small { result < 2 ^ 63 }
    {
        // No more are left than the map has.
        prove!(self.map.len() < 1 << 63);
        self.len
    }

    /// The value of the field.
    pub fn get(&self, field: &ByteString) -> Option<&ByteString>
        ensures { option_copied result ≡ value_of self.now.pairs field.now }
    {
        holes::value_in(&self.map, &self.removed, field)
    }

    /// The pairs, in order.
    pub fn iter(&self) -> Iter<'_>
        ensures { result ≡ self.now.pairs }
    {
        Iter::over_holed(&self.map, &self.removed)
    }

    /// Makes room for so many more pairs. Where memory is refused, nothing has changed.
    pub fn reserve(&mut self, more: usize) -> Result<(), AllocError>
        ensures pairs { self.new.pairs ≡ self.old.pairs }
        ensures room { OnOk result (more ≤ self.new.room) }
    {
        self.map.reserve(more)
    }

    /// Sets the field, and gives back the value that it had. Where memory is refused, nothing has changed.
    pub fn put(
        &mut self,
        field: ByteString,
        value: ByteString,
    ) -> Result<Option<ByteString>, AllocError>
        ensures old { IfOk result (λ old. old ≡ value_of self.old.pairs field) }
        ensures pairs { OnOk result (self.new.pairs ≡ field_changed self.old.pairs field (Some value)) }
        ensures err { OnErr result (self.new.pairs ≡ self.old.pairs) }
    {
        // So few pairs and one more are counted in 64 bits.
        prove!(self.len() < 1 << 63);
        let old = holes::put(&mut self.map, &mut self.removed, field, value)?;
        if old.is_none() {
            self.len += 1;
        }
        Ok(old)
    }

    /// Sets the field, for which there is room, and gives back the value that it had.
    pub fn set(&mut self, field: ByteString, value: ByteString) -> Option<ByteString>
        requires { 1 ≤ self.old.room }
        ensures old { result ≡ value_of self.old.pairs field }
        ensures pairs { self.new.pairs ≡ field_changed self.old.pairs field (Some value) }
        ensures room { self.old.room ≤ self.new.room + 1 }
    {
        // So few pairs and one more are counted in 64 bits.
        prove!(self.len() < 1 << 63);
        let old = holes::set(&mut self.map, &mut self.removed, field, value);
        if old.is_none() {
            self.len += 1;
        }
        old
    }

    /// Removes the field, and gives back the value that it had. The others keep their order.
    ///
    /// Once more fields are removed than are left, all holes are closed: a removal moves about one other pair on average.
    pub fn remove(&mut self, field: &ByteString) -> Option<ByteString>
        ensures old { result ≡ value_of self.old.pairs field.now }
        ensures pairs { self.new.pairs ≡ field_changed self.old.pairs field.now None }
        ensures room { self.old.room ≤ self.new.room }
    {
        let old = holes::remove(&mut self.map, &mut self.removed, field)?;
        self.len -= 1;
        if self.removed.len() > self.len {
            self.close_all();
        }
        Some(old)
    }

    fn close_all(&mut self)
        ensures pairs { self.new.pairs ≡ self.old.pairs }
        ensures room { self.old.room ≤ self.new.room }
    {
        holes::close_all(&mut self.map, &self.removed);
        self.removed = IndexSet::new(*self.map.allocator());
    }
}

impl Clone for Holed {
    ghost is_clone = { λ holed copy. copy.pairs ≡ holed.pairs };

    fn clone(&self) -> Result<Holed, AllocError> {
        Ok(Holed {
            map: self.map.clone()?,
            removed: self.removed.clone()?,
            len: self.len,
        })
    }
}
