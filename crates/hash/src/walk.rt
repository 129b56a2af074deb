//! A walk over packed pairs.
ghost use Rattle.std.specs.Prelude.{◌≡◌};
ghost use Rattle.std.specs.Map.Iter.{TakesFirst, deref_pair};
ghost use Rattle.hash.specs.Packed.{pairs_in, IsPacking};

use crate::packing::first_pair;
use std::marker::Model;

/// The pairs that are left in packed bytes, one after another.
#[derive(Drop)]
pub struct Walk<'a> {
    rest: &'a [u8],
}

impl<'a> Model for Walk<'a> {
    ghost use Rattle.hash.specs.Pairs.{Pairs};
    ghost use Rattle.hash.specs.Packed.{pairs_in, IsPacking};

    ghost Value = { Pairs };

    ghost view = { λ walk. pairs_in walk.rest.now };

    ghost invariant = { λ walk. IsPacking walk.rest.now };
}

impl<'a> Walk<'a> {
    /// A walk over all pairs in the bytes.
    pub fn over(bytes: &'a [u8]) -> Walk<'a>
        requires { IsPacking bytes.now }
        ensures { result ≡ pairs_in bytes.now }
    {
        Walk { rest: bytes }
    }

    /// The next pair: its field and its value.
    pub fn next_pair(&mut self) -> Option<(&'a [u8], &'a [u8])>
        ensures { TakesFirst deref_pair self.old result self.new }
    {
        let rest = self.rest;
        if rest.is_empty() {
            return None;
        }
        let first = first_pair(rest);
        self.rest = &rest[first.end..];
        Some((&rest[1..first.value], &rest[first.value + 1..first.end]))
    }
}
