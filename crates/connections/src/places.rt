//! The places of connections, by key.
ghost use Rattle.std.specs.Prelude.{◌≡◌, ◌+◌, ◌≤◌, ◌++◌, ◌∷◌, [], None, Some, IsSome, length, option_copied, slice_index_or, slice_set, vec_capacity, vec_len, IfOk, OnOk, OnErr};
ghost use Rattle.connections.specs.Places.{Fills};

use crate::conn::Connection;
use std::alloc::{AllocError, Global};
use std::marker::Model;

/// The places of connections, by key. Those that are free are filled before there is a new one.
#[derive(Drop)]
pub(crate) struct Places {
    slots: Vec<Option<Connection>>,
    // The keys of the places that are free; the last one is taken first. There is room for the key of each place.
    free: Vec<usize>,
}

impl Model for Places {
    ghost use Rattle.std.specs.Prelude.{length, reverse, vec_capacity};
    ghost use Rattle.connections.specs.Places.{PlaceTable, next_key, AreKept};

    ghost Value = { PlaceTable };

    ghost view = { λ places. record {
      slots = places.slots.items;
      next_key = next_key (reverse places.free.items) (length places.slots.items);
    } };

    ghost invariant = { λ places. AreKept places.slots.items places.free.items (vec_capacity places.free) };
}

impl Places {
    // No place. It takes no memory.
    pub(crate) fn new(alloc: Global) -> Places
        ensures { result.slots ≡ [] }
    {
        Places {
            slots: Vec::new(alloc),
            free: Vec::new(alloc),
        }
    }

    // What is at each key.
    pub(crate) fn slots(&self) -> &[Option<Connection>]
        ensures { result.now ≡ self.now.slots }
    {
        self.slots.as_slice()
    }

    // How many places there are.
    pub(crate) fn len(&self) -> usize
        ensures { result ≡ length self.now.slots }
    {
        self.slots.len()
    }

    // The connection with that key, if there is one.
    pub(crate) fn get(&self, key: usize) -> Option<&Connection>
        ensures { option_copied result ≡ slice_index_or self.now.slots key None }
    {
        match self.slots.get(key) {
            Some(Some(connection)) => Some(connection),
            _ => None,
        }
    }

    // The connection with that key is another one.
    pub(crate) fn put(&mut self, key: usize, connection: Connection)
        requires { IsSome (slice_index_or self.old.slots key None) }
        ensures { self.new.slots ≡ slice_set self.old.slots key (Some connection) }
    {
        self.slots[key] = Some(connection);
    }

    // The key that the next connection gets.
    pub(crate) fn next_key(&self) -> usize
        ensures value { result ≡ self.now.next_key }
        ensures free { slice_index_or self.now.slots result None ≡ None }
        ensures next { result ≤ length self.now.slots }
    {
        self.free.last().copied().unwrap_or(self.len())
    }

    // Fills the place of the next key, and makes it if there is none. It changes nothing where there is no memory.
    pub(crate) fn insert(&mut self, connection: Connection) -> Result<usize, AllocError>
        ensures key { IfOk result (λ key. key ≡ self.old.next_key) }
        ensures filled { IfOk result (λ key. Fills self.old.slots self.new.slots key connection) }
        ensures err { OnErr result (self.new.slots ≡ self.old.slots) }
    {
        let Some(key) = self.free.pop() else {
            return add_place(&mut self.slots, &mut self.free, connection);
        };
        self.slots[key] = Some(connection);
        Ok(key)
    }

    // The place of the connection is free. It takes no memory.
    pub(crate) fn remove(&mut self, key: usize)
        requires { IsSome (slice_index_or self.old.slots key None) }
        ensures { self.new.slots ≡ slice_set self.old.slots key None }
    {
        self.slots[key] = None;
        self.free.push_reserved(key);
    }
}

// Makes a place behind the last one, with room for its key.
fn add_place(
    slots: &mut Vec<Option<Connection>>,
    free: &mut Vec<usize>,
    connection: Connection,
) -> Result<usize, AllocError>
    ensures key { IfOk result (λ key. key ≡ vec_len slots.old) }
    ensures added { OnOk result (slots.new.items ≡ slots.old.items ++ Some connection ∷ []) }
    ensures room { OnOk result (vec_len slots.new ≤ vec_capacity free.new) }
    ensures free { free.new.items ≡ free.old.items }
    ensures capacity { vec_capacity free.old ≤ vec_capacity free.new }
    ensures err { OnErr result (slots.new.items ≡ slots.old.items) }
{
    let key = slots.len();
    slots.reserve(1)?;
    free.reserve(key + 1)?;
    slots.push_reserved(Some(connection));
    Ok(key)
}
