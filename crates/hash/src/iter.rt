//! The pairs of a hash, one after another.
ghost use Rattle.std.specs.Prelude.{◌≡◌, List, ℕ, length};
ghost use Rattle.std.specs.Iterator.{at_most};
ghost use Rattle.std.specs.Map.Iter.{TakesFirst, deref_pair};
ghost use Rattle.hash.specs.Holed.{left_of};

use crate::holes;
use crate::packed::Packed;
use crate::walk::Walk;
use crate::word::Word;
use byte_string::ByteString;
use indexmap::{IndexMap, IndexSet, map};
use std::marker::Model;
use std::slice;

#[derive(Drop)]
enum Form<'a> {
    Packed(Walk<'a>),
    Few(slice::Iter<'a, (ByteString, ByteString)>),
    Many(map::Iter<'a, ByteString, ByteString>),
    Holed(Left<'a>),
}

// The pairs of a map whose fields aren't removed.
#[derive(Drop)]
struct Left<'a> {
    pairs: map::Iter<'a, ByteString, ByteString>,
    removed: &'a IndexSet<ByteString>,
}

/// The fields of a hash with their values, in order.
#[derive(Drop)]
pub struct Iter<'a> {
    form: Form<'a>,
}

impl<'a> Model for Iter<'a> {
    ghost use Rattle.hash.specs.Pairs.{Pairs};

    ghost Value = { Pairs };

    ghost use Rattle.hash.specs.Iter.{pairs_left};

    ghost view = { λ iter. pairs_left iter.form };
}

impl<'a> Iter<'a> {
    pub(crate) fn over_packed(packed: &'a Packed) -> Iter<'a>
        ensures { result ≡ packed.now }
    {
        Iter {
            form: Form::Packed(packed.walk()),
        }
    }

    pub(crate) fn over_few(pairs: &'a [(ByteString, ByteString)]) -> Iter<'a>
        ensures { result ≡ pairs.now }
    {
        Iter {
            form: Form::Few(pairs.iter()),
        }
    }

    pub(crate) fn over_many(map: &'a IndexMap<ByteString, ByteString>) -> Iter<'a>
        ensures { result ≡ map.now.entries }
    {
        Iter {
            form: Form::Many(map.iter()),
        }
    }

    pub(crate) fn over_holed(
        map: &'a IndexMap<ByteString, ByteString>,
        removed: &'a IndexSet<ByteString>,
    ) -> Iter<'a>
        ensures { result ≡ left_of map.now.entries removed.now.keys }
    {
        Iter {
            form: Form::Holed(Left {
                pairs: map.iter(),
                removed,
            }),
        }
    }
}

impl<'a> Iterator for Iter<'a> {
    type Item = (Word<'a>, Word<'a>);

    ghost next_gives = { TakesFirst (λ (pair : List ℕ × List ℕ). pair) };

    ghost remaining = { λ pairs. at_most (length pairs) };

    fn next(&mut self) -> Option<(Word<'a>, Word<'a>)> {
        match &mut self.form {
            Form::Packed(walk) => {
                let (field, value) = walk.next_pair()?;
                Some((Word::packed(field), Word::packed(value)))
            }
            Form::Few(pairs) => {
                let pair = pairs.next()?;
                Some((Word::string(&pair.0), Word::string(&pair.1)))
            }
            Form::Many(pairs) => {
                let (field, value) = pairs.next()?;
                Some((Word::string(field), Word::string(value)))
            }
            Form::Holed(left) => {
                let (field, value) = next_left(&mut left.pairs, left.removed)?;
                Some((Word::string(field), Word::string(value)))
            }
        }
    }
}

// The next pair whose field isn't removed.
fn next_left<'a>(
    pairs: &mut map::Iter<'a, ByteString, ByteString>,
    removed: &IndexSet<ByteString>,
) -> Option<(&'a ByteString, &'a ByteString)>
    ensures { TakesFirst deref_pair (left_of pairs.old removed.now.keys) result (left_of pairs.new removed.now.keys) }
{
    while let Some((field, value)) = pairs.next() {
        if !holes::is_removed(removed, field) {
            return Some((field, value));
        }
    }
    None
}
