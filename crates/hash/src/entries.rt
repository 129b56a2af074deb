//! The fields of a hash with their values: few in a list, many in a map, and many with holes where fields were removed.
ghost use Rattle.std.specs.Prelude.{◌≡◌, ◌∷◌, [], ◌<◌, ◌≤◌, ◌^◌, length, Some, None, IfOk, OnOk, OnErr};
ghost use Rattle.std.specs.Option.{option_copied};
ghost use Rattle.indexmap.specs.IndexMap.{spare};
ghost use Rattle.hash.specs.Pairs.{Changes, value_of, field_changed, field_set, HasDistinctFields};
ghost use Rattle.hash.specs.Entries.{pairs_of, IsReadyFor, StaysReady};

use crate::holed::Holed;
use crate::iter::Iter;
use crate::{few, many};
use byte_string::ByteString;
use indexmap::IndexMap;
use std::alloc::{AllocError, Global};
use std::mem;

/// How many fields lie in a list at most. A walk over so many costs about as much as a look into a map.
const MOST_FEW: usize = 8;

/// How many pairs are moved at most to close the gap of a removed field. Where more stand behind it, a hole costs less,
/// though each look-up then asks first whether its field is removed.
const MOST_MOVED: usize = 512;

/// Pairs in the order in which their fields came. Entries that became a map stay one, and so do those with holes.
#[derive(Drop)]
pub enum Entries {
    /// Few pairs, with room for no more than was asked for.
    Few(Vec<(ByteString, ByteString)>),
    /// Many pairs.
    Many(Box<IndexMap<ByteString, ByteString>>),
    /// Many pairs, since one was removed that stood far from the end.
    Holed(Box<Holed>),
}

impl Entries {
    /// No pairs. They take no memory.
    pub fn new(alloc: Global) -> Entries
        ensures { pairs_of result ≡ [] }
    {
        Entries::Few(Vec::new(alloc))
    }

    /// The number of pairs.
    pub fn len(&self) -> usize
        ensures len { result ≡ length (pairs_of self.now) }
        ensures small { result < 2 ^ 63 }
    {
        match self {
            Entries::Few(pairs) => pairs.len(),
            Entries::Many(map) => map.len(),
            Entries::Holed(holed) => holed.len(),
        }
    }

    /// The value of the field.
    pub fn get(&self, field: &ByteString) -> Option<&ByteString>
        ensures { option_copied result ≡ value_of (pairs_of self.now) field.now }
    {
        match self {
            Entries::Few(pairs) => few::value_in(pairs.as_slice(), field),
            Entries::Many(map) => map.get(field),
            Entries::Holed(holed) => holed.get(field),
        }
    }

    /// The pairs, in order.
    pub fn iter(&self) -> Iter<'_>
        ensures { result ≡ pairs_of self.now }
    {
        match self {
            Entries::Few(pairs) => Iter::over_few(pairs.as_slice()),
            Entries::Many(map) => Iter::over_many(map),
            Entries::Holed(holed) => holed.iter(),
        }
    }

    /// Makes room for all fields that the changes set. Where memory is refused, nothing has changed.
    pub fn make_room(
        &mut self,
        changes: &[(ByteString, Option<ByteString>)],
    ) -> Result<(), AllocError>
        requires { HasDistinctFields (pairs_of self.old) }
        ensures pairs { pairs_of self.new ≡ pairs_of self.old }
        ensures ready { OnOk result (IsReadyFor self.new changes.now) }
    {
        // The pairs and so few changes are counted in 64 bits together.
        prove!(changes.len() < 1 << 60);
        match self {
            Entries::Few(pairs) => {
                let new = few::count_new(pairs.as_slice(), changes);
                if pairs.len().saturating_add(new) <= MOST_FEW {
                    pairs.reserve_exact(new)?;
                    return Ok(());
                }
                let map = map_of(pairs, changes.len())?;
                *self = Entries::Many(map);
                Ok(())
            }
            Entries::Many(map) => map.reserve(changes.len()),
            Entries::Holed(holed) => holed.reserve(changes.len()),
        }
    }

    /// Sets the field, and gives back the value that it had. Where memory is refused, nothing has changed.
    pub fn put(
        &mut self,
        field: ByteString,
        value: ByteString,
    ) -> Result<Option<ByteString>, AllocError>
        requires { HasDistinctFields (pairs_of self.old) }
        ensures old { IfOk result (λ old. old ≡ value_of (pairs_of self.old) field) }
        ensures pairs { OnOk result (pairs_of self.new ≡ field_set (pairs_of self.old) field value) }
        ensures err { OnErr result (pairs_of self.new ≡ pairs_of self.old) }
    {
        let pairs = match self {
            Entries::Few(pairs) => pairs,
            Entries::Many(map) => return many::put(map, field, value),
            Entries::Holed(holed) => return holed.put(field, value),
        };
        match few::place_of(pairs.as_slice(), &field) {
            Some(place) => Ok(Some(few::replace_at(pairs, place, value))),
            None if pairs.len() < MOST_FEW => {
                few::push(pairs, field, value)?;
                Ok(None)
            }
            None => {
                *self = Entries::Many(map_with(pairs, field, value)?);
                Ok(None)
            }
        }
    }

    /// Sets the field, for which there is room, and gives back the value that it had.
    pub fn set(&mut self, field: ByteString, value: ByteString) -> Option<ByteString>
        requires { IsReadyFor self.old ((field, Some value) ∷ []) }
        ensures old { result ≡ value_of (pairs_of self.old) field }
        ensures pairs { pairs_of self.new ≡ field_set (pairs_of self.old) field value }
        ensures ready { StaysReady self.old self.new (field, Some value) }
    {
        match self {
            Entries::Few(pairs) => few::set(pairs, field, value),
            Entries::Many(map) => many::set(map, field, value),
            Entries::Holed(holed) => holed.set(field, value),
        }
    }

    /// Removes the field, and gives back the value that it had. The others keep their order.
    pub fn remove(&mut self, field: &ByteString) -> Option<ByteString>
        ensures old { result ≡ value_of (pairs_of self.old) field.now }
        ensures pairs { pairs_of self.new ≡ field_changed (pairs_of self.old) field.now None }
        ensures ready { StaysReady self.old self.new (field.now, None) }
    {
        self.open_before(field);
        match self {
            Entries::Few(pairs) => few::remove(pairs, field),
            Entries::Many(map) => map.shift_remove(field),
            Entries::Holed(holed) => holed.remove(field),
        }
    }

    // Where the removal of the field would move many pairs, the map may have holes from now on, if there is memory for it.
    fn open_before(&mut self, field: &ByteString)
        ensures pairs { pairs_of self.new ≡ pairs_of self.old }
        ensures ready { (changes : Changes) → IsReadyFor self.old changes → IsReadyFor self.new changes }
    {
        let Entries::Many(map) = self else {
            return;
        };
        if map.len() <= MOST_MOVED {
            return;
        }
        let Some(place) = map.get_index_of(field) else {
            return;
        };
        let behind = map.len() - place - 1;
        if behind > MOST_MOVED {
            if let Ok(holed) = Holed::of(map) {
                *self = Entries::Holed(holed);
            }
        }
    }
}

// The pairs in a map with room for as many more. They are moved once nothing can be refused any more.
fn map_of(
    pairs: &mut Vec<(ByteString, ByteString)>,
    more: usize,
) -> Result<Box<IndexMap<ByteString, ByteString>>, AllocError>
    requires distinct { HasDistinctFields pairs.old.items }
    requires small { more < 2 ^ 60 }
    ensures pairs { IfOk result (λ map. map.value.entries ≡ pairs.old.items) }
    ensures room { IfOk result (λ map. more ≤ spare map.value) }
    ensures err { OnErr result (pairs.new.items ≡ pairs.old.items) }
{
    let alloc = *pairs.allocator();
    let mut map = many::with_room(alloc, pairs.len() + more)?;
    many::fill(&mut map, mem::replace(pairs, Vec::new(alloc)));
    Ok(map)
}

// The pairs in a map, and one more behind them.
fn map_with(
    pairs: &mut Vec<(ByteString, ByteString)>,
    field: ByteString,
    value: ByteString,
) -> Result<Box<IndexMap<ByteString, ByteString>>, AllocError>
    requires { HasDistinctFields pairs.old.items }
    ensures pairs { IfOk result (λ map. map.value.entries ≡ field_set pairs.old.items field value) }
    ensures err { OnErr result (pairs.new.items ≡ pairs.old.items) }
{
    let mut map = map_of(pairs, 1)?;
    let _none = many::set(&mut map, field, value);
    Ok(map)
}

impl Clone for Entries {
    ghost is_clone = { λ entries copy. pairs_of copy ≡ pairs_of entries };

    fn clone(&self) -> Result<Entries, AllocError> {
        match self {
            Entries::Few(pairs) => Ok(Entries::Few(pairs.clone()?)),
            Entries::Many(map) => Ok(Entries::Many(map.clone()?)),
            Entries::Holed(holed) => Ok(Entries::Holed(holed.clone()?)),
        }
    }
}
