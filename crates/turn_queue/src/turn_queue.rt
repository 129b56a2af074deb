//! Keys in the order in which their turns come, each once.
ghost use Rattle.std.specs.Prelude.{◌≡◌, ◌≢◌, ◌==◌, ◌+◌, ◌<◌, ◌≤◌, ◌++◌, [], Some, true, false, length, nat_eq, option_to_list, slice_get, OnOk};
ghost use Rattle.std.specs.List.{IsDistinct};
ghost use Rattle.std.specs.VecDeque.Iter.{deque_iter_rest};
ghost use Rattle.turn_queue.specs.Turns.{added, without};

use std::alloc::{AllocError, Global};
use std::collections::VecDeque;
use std::collections::vec_deque::Iter;
use std::marker::Model;

/// The keys of those who wait for their turn, as a slab gives them, in the order in which they came, each once. There is room for each key below
/// some number.
#[derive(Drop)]
pub struct TurnQueue {
    keys: VecDeque<usize>,
    // For each key that has room: whether it is among the keys.
    marks: Vec<bool>,
}

impl Model for TurnQueue {
    ghost use Rattle.std.specs.Prelude.{length};
    ghost use Rattle.std.specs.VecDeque.{deque_capacity};
    ghost use Rattle.turn_queue.specs.Turns.{Turns, IsKept};

    ghost Value = { Turns };

    ghost view = { λ queue. record { keys = queue.keys.items; room = length queue.marks.items } };

    ghost invariant = { λ queue. IsKept queue.keys.items queue.marks.items (deque_capacity queue.keys) };
}

impl TurnQueue {
    /// No keys, and room for none.
    pub fn new(alloc: Global) -> TurnQueue
        ensures { result.keys ≡ [] }
    {
        TurnQueue {
            keys: VecDeque::new(alloc),
            marks: Vec::new(alloc),
        }
    }

    /// How many keys there are.
    pub fn len(&self) -> usize
        ensures { result ≡ length self.now.keys }
    {
        self.keys.len()
    }

    /// Whether there is none.
    pub fn is_empty(&self) -> bool
        ensures { result ≡ (length self.now.keys == 0) }
    {
        self.keys.is_empty()
    }

    /// The keys, by how long they have waited. None comes twice.
    pub fn iter(&self) -> Iter<'_, usize>
        ensures keys { deque_iter_rest result ≡ self.now.keys }
        ensures once { IsDistinct nat_eq self.now.keys }
    {
        self.keys.iter()
    }

    /// The key that has waited longest.
    pub fn front(&self) -> Option<usize>
        ensures { result ≡ slice_get self.now.keys 0 }
    {
        self.get(0)
    }

    /// The key at that place, of which the first is 0.
    pub fn get(&self, place: usize) -> Option<usize>
        ensures { result ≡ slice_get self.now.keys place }
    {
        self.keys.get(place).copied()
    }

    /// Makes room for the key, and for all below it, so that they can be added without memory.
    pub fn make_room(&mut self, key: usize) -> Result<(), AllocError>
        ensures keys { self.new.keys ≡ self.old.keys }
        ensures room { OnOk result (key < self.new.room) }
        ensures kept { self.old.room ≤ self.new.room }
    {
        'rooms: while self.marks.len() <= key {
            self.add_room()?;
        }
        Ok(())
    }

    // Makes room for one more key.
    fn add_room(&mut self) -> Result<(), AllocError>
        ensures keys { self.new.keys ≡ self.old.keys }
        ensures ok { OnOk result (self.new.room ≡ self.old.room + 1) }
        ensures kept { self.old.room ≤ self.new.room }
    {
        self.marks.reserve(1)?;
        let missing = self.marks.len() + 1 - self.keys.len();
        self.keys.reserve(missing)?;
        self.marks.push_reserved(false);
        Ok(())
    }

    /// Puts the key behind the others, unless it is among them. It takes no memory, and a key without room isn't put there.
    pub fn add(&mut self, key: usize)
        ensures keys { self.new.keys ≡ added key self.old }
        ensures room { self.new.room ≡ self.old.room }
    {
        if has_mark(self.marks.as_slice(), key, false) {
            self.marks[key] = true;
            self.keys.push_back_reserved(key);
        }
    }

    /// Takes the key that has waited longest.
    pub fn pop_front(&mut self) -> Option<usize>
        ensures first { result ≡ slice_get self.old.keys 0 }
        ensures keys { self.old.keys ≡ option_to_list result ++ self.new.keys }
        ensures room { self.new.room ≡ self.old.room }
    {
        let key = self.keys.pop_front()?;
        self.marks[key] = false;
        Some(key)
    }

    /// Takes the key out, wherever it is.
    pub fn remove(&mut self, key: usize)
        ensures keys { self.new.keys ≡ without key self.old.keys }
        ensures room { self.new.room ≡ self.old.room }
    {
        if has_mark(self.marks.as_slice(), key, true) {
            self.marks[key] = false;
            self.keys.retain(|other| *other != key);
        }
    }
}

// Whether the key has room, and this mark.
fn has_mark(marks: &[bool], key: usize, mark: bool) -> bool
    ensures yes { result ≡ true → slice_get marks.now key ≡ Some mark }
    ensures no { result ≡ false → slice_get marks.now key ≢ Some mark }
{
    match marks.get(key) {
        Some(found) => *found == mark,
        None => false,
    }
}
