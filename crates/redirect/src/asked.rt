//! What of a command bears on a move of its slot.
ghost use Rattle.std.specs.Prelude.{◌≡◌, nat_eq, not};
ghost use Rattle.std.specs.Option.{option_copied};
ghost use Rattle.std.specs.Cmp.Lexicographic.{pointwise};
ghost use Rattle.std.specs.List.{list_all, list_any};
ghost use Rattle.redirect.specs.Asked.{bytes_of, is_frozen, is_one_of, is_right, are_several};

use byte_string::ByteString;
use slot_state::{Keys, MoveNo};

/// What an ASKING allows the next command of its connection.
#[derive(Clone, Copy, PartialEq, Eq, Debug)]
pub enum Asking {
    /// Nothing: there was none.
    No,
    /// To be served in any slot that comes to the node.
    Any,
    /// To be served in a slot that comes to the node in the move of that number.
    Of(MoveNo),
}

// Whether the asking is right for an import of this number.
pub(crate) fn is_right(asking: Asking, number: MoveNo) -> bool
    ensures { result ≡ is_right asking number }
{
    match asking {
        Asking::No => false,
        Asking::Any => true,
        Asking::Of(asked) => asked == number,
    }
}

// Whether two of the keys differ.
pub(crate) fn are_several(keys: &[&[u8]]) -> bool
    ensures { result ≡ are_several (bytes_of keys.now) }
{
    match keys.split_first() {
        None => false,
        Some((first, others)) => has_another(others, first),
    }
}

// Whether one of the keys is in the copy that is outstanding, if there is one.
pub(crate) fn is_frozen(frozen: Option<&Keys>, keys: &[&[u8]]) -> bool
    ensures { result ≡ is_frozen (option_copied frozen.entry) (bytes_of keys.now) }
{
    match frozen {
        None => false,
        Some(frozen) => is_any_of(frozen.as_slice(), keys),
    }
}

// Whether one of the keys is among the others.
fn is_any_of(others: &[ByteString], keys: &[&[u8]]) -> bool
    ensures { result ≡ list_any (λ key. is_one_of others.now key.now) keys.now }
{
    keys.iter().any(|key| is_one_of(others, key))
}

fn is_one_of(keys: &[ByteString], key: &[u8]) -> bool
    ensures { result ≡ is_one_of keys.now key.now }
{
    keys.iter().any(|other| other.as_slice() == key)
}

fn has_another(keys: &[&[u8]], key: &[u8]) -> bool
    ensures { result ≡ list_any (λ other. not (pointwise nat_eq other.now key.now)) keys.now }
{
    keys.iter().any(|other| *other != key)
}

pub(crate) fn are_all(there: &[bool]) -> bool
    ensures { result ≡ list_all (λ is. is) there.now }
{
    there.iter().all(|is| *is)
}

pub(crate) fn is_any(there: &[bool]) -> bool
    ensures { result ≡ list_any (λ is. is) there.now }
{
    there.iter().any(|is| *is)
}
