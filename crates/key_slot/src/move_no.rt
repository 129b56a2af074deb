//! The number of a move of a slot.
ghost use Rattle.std.specs.Prelude.{◌≡◌, ◌<◌, ◌^◌, SomeIff};

use std::marker::Model;

/// The number of a move of a slot, from 1 to 9223372036854775807; 0 is the one before the first.
#[derive(Clone, Copy, PartialEq, Eq, PartialOrd, Ord, Hash, Debug)]
pub struct MoveNo {
    number: u64,
}

impl Model for MoveNo {
    ghost use Rattle.std.specs.Prelude.{ℕ, ◌<◌, ◌^◌};

    ghost Value = { ℕ };

    ghost view = { λ number. number.number };

    ghost invariant = { λ number. number.number < 2 ^ 63 };

    ghost inverse = { λ number. record { number = number } };
}

impl MoveNo {
    /// The number before the first move.
    pub const ZERO: MoveNo = MoveNo { number: 0 };

    /// That number, or `None` from 9223372036854775808 on.
    pub fn new(number: u64) -> Option<MoveNo>
        ensures { SomeIff result (number < 2 ^ 63) number }
    {
        if number > i64::MAX as u64 {
            return None;
        }
        Some(MoveNo { number })
    }

    /// The number.
    pub fn get(self) -> u64
        ensures same { result ≡ self }
        ensures below { result < 2 ^ 63 }
    {
        self.number
    }
}
