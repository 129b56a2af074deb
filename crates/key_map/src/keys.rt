//! The keys of a map, one after another.
ghost use Rattle.std.specs.Prelude.{◌≡◌, ◌^◌, ◌<◌, length};
ghost use Rattle.std.specs.Iterator.{at_most};
ghost use Rattle.std.specs.Map.{keys_of};
ghost use Rattle.std.specs.Map.Iter.{TakesFirst, deref};
ghost use Rattle.key_map.specs.Form.{entries_of};

use crate::form::Form;
use byte_string::ByteString;
use std::collections::btree_map;
use std::marker::Model;

#[derive(Drop)]
enum Rest<'a, V> {
    Few(&'a [(ByteString, V)]),
    Many(btree_map::Keys<'a, ByteString, V>),
}

/// The keys that are left, in byte order.
#[derive(Drop)]
pub struct Keys<'a, V> {
    rest: Rest<'a, V>,
}

impl<'a, V> Model for Keys<'a, V> {
    ghost use Rattle.std.specs.Prelude.{ℕ, List};
    ghost use Rattle.key_map.specs.Keys.{keys_left};

    ghost Value = { List (List ℕ) };

    ghost view = { λ keys. keys_left keys.rest };
}

impl<'a, V> Keys<'a, V> {
    pub(crate) fn of(form: &'a Form<V>) -> Keys<'a, V>
        ensures { result ≡ keys_of (entries_of form.now) }
    {
        let rest = match form {
            Form::Few(few) => Rest::Few(few.pairs.as_slice()),
            Form::Many(tree) => Rest::Many(tree.keys()),
        };
        Keys { rest }
    }
}

impl<'a, V> Iterator for Keys<'a, V> {
    type Item = &'a ByteString;

    ghost next_gives = { TakesFirst deref };

    ghost remaining = { λ keys. at_most (length keys) };

    fn next(&mut self) -> Option<&'a ByteString> {
        match &mut self.rest {
            Rest::Few(pairs) => {
                let (pair, after) = pairs.split_first()?;
                *pairs = after;
                Some(&pair.0)
            }
            Rest::Many(keys) => keys.next(),
        }
    }
}
