//! Slots, the 16384 parts of the keyspace, and ranges of them.
ghost use Rattle.std.specs.Prelude.{◌≡◌, ◌%◌, ◌<◌, SomeIff};

use std::marker::Model;

/// The number of a slot, from 0 to 16383.
#[derive(Clone, Copy, PartialEq, Eq, PartialOrd, Ord, Hash, Debug)]
pub struct Slot {
    number: u16,
}

impl Model for Slot {
    ghost use Rattle.std.specs.Prelude.{ℕ, ◌<◌};

    ghost Value = { ℕ };

    ghost view = { λ slot. slot.number };

    ghost invariant = { λ slot. slot.number < 16384 };

    ghost inverse = { λ number. record { number = number } };
}

impl Slot {
    /// How many slots there are.
    pub const COUNT: usize = 16384;

    /// The slot of that number, or `None` from 16384 on.
    pub fn new(number: u16) -> Option<Slot>
        ensures { SomeIff result (number < 16384) number }
    {
        if number as usize >= Slot::COUNT {
            return None;
        }
        Some(Slot { number })
    }

    // The slot of the keys whose tag has this CRC16.
    pub(crate) fn of_crc(crc: u16) -> Slot
        ensures { result ≡ crc % 16384 }
    {
        Slot {
            number: crc % Slot::COUNT as u16,
        }
    }

    /// The number.
    pub fn get(self) -> u16
        ensures same { result ≡ self }
        ensures below { result < 16384 }
    {
        self.number
    }

    /// The number as an index, below [`Slot::COUNT`].
    pub fn index(self) -> usize
        ensures same { result ≡ self }
        ensures below { result < 16384 }
    {
        self.number as usize
    }
}

/// The slots from `first` to `last`, both included; a range whose `last` is below its `first` has no slots.
#[derive(Clone, Copy, PartialEq, Eq, Debug)]
pub struct SlotRange {
    /// The first slot.
    pub first: Slot,
    /// The last slot, which may be the first one.
    pub last: Slot,
}
