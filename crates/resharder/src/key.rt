//! A key, and the keys that a reply lists.
ghost use Rattle.std.specs.Bool.{OnFalse, OnTrue};
ghost use Rattle.std.specs.Prelude.{◌≡◌, ◌≢◌, ◌≤◌, ◌∷◌, ◌++◌, [], length, take, IfOk, OnOk, SomeIff};
ghost use Rattle.resp_values.specs.declared.words.TheConstants.{MOST_WORD_BYTES};
ghost use Rattle.resharder.specs.Replies.{key_of, keys_in, keys_onto};

use byte_string::ByteString;
use resp_values::{Element, MOST_WORD_BYTES, Reply};
use std::alloc::{AllocError, Global};
use std::marker::Model;

/// A key: its bytes fit into a word of a request.
pub(crate) struct Key {
    bytes: ByteString,
}

impl Model for Key {
    ghost use Rattle.std.specs.Prelude.{List, ℕ, ◌≤◌, length};
    ghost use Rattle.resp_values.specs.declared.words.TheConstants.{MOST_WORD_BYTES};

    ghost Value = { List ℕ };

    ghost view = { λ key. key.bytes };

    ghost invariant = { λ key. length key.bytes ≤ MOST_WORD_BYTES };
}

// It does what the derive would. Written out it is one call wherever a key is let go.
impl Drop for Key {
    fn drop(self) {
        let Key { bytes: _bytes } = self;
    }
}

impl Key {
    /// The key with these bytes, or None where they are too many for a word.
    pub(crate) fn new(bytes: ByteString) -> Option<Key>
        ensures { SomeIff result (length bytes ≤ MOST_WORD_BYTES) bytes }
    {
        if bytes.len() > MOST_WORD_BYTES {
            return None;
        }
        Some(Key { bytes })
    }

    /// How many bytes it has.
    pub(crate) fn len(&self) -> usize
        ensures len { result ≡ length self.now }
        ensures short { length self.now ≤ MOST_WORD_BYTES }
    {
        self.bytes.len()
    }

    /// A word with the bytes, which it shares.
    pub(crate) fn word(&self) -> Result<ByteString, AllocError>
        ensures word { IfOk result (λ word. word ≡ self.now) }
        ensures short { length self.now ≤ MOST_WORD_BYTES }
    {
        self.bytes.clone()
    }
}

/// Keys, in the order in which a reply lists them.
#[derive(Drop)]
pub(crate) struct Keys {
    keys: Vec<Key>,
}

impl Model for Keys {
    ghost use Rattle.std.specs.Prelude.{List, ℕ};

    ghost Value = { List (List ℕ) };

    ghost view = { λ keys. keys.keys.items };
}

impl Keys {
    /// The keys that the reply lists, or None where it is no list of keys.
    pub(crate) fn read(alloc: Global, reply: &Reply) -> Result<Option<Keys>, AllocError>
        ensures { IfOk result (λ keys. keys ≡ keys_in reply.now) }
    {
        let Reply::Array(array) = reply else {
            return Ok(None);
        };
        match array.as_slice() {
            [Element::Array(_), elements @ ..] => read_keys(alloc, elements),
            _ => Ok(None),
        }
    }

    /// None.
    fn new(alloc: Global) -> Keys
        ensures { result ≡ [] }
    {
        Keys {
            keys: Vec::new(alloc),
        }
    }

    /// Puts a key behind the others.
    fn push(&mut self, key: Key) -> Result<(), AllocError>
        ensures { OnOk result (self.new ≡ self.old ++ key ∷ []) }
    {
        self.keys.push(key)?;
        Ok(())
    }

    /// The keys, one behind another.
    pub(crate) fn as_slice(&self) -> &[Key]
        ensures { result.now ≡ self.now }
    {
        self.keys.as_slice()
    }

    /// Whether there is none.
    pub(crate) fn is_empty(&self) -> bool
        ensures none { OnTrue result (self.now ≡ []) }
        ensures some { OnFalse result (self.now ≢ []) }
    {
        self.keys.is_empty()
    }

    /// Keeps so many keys from the front.
    pub(crate) fn truncate(&mut self, count: usize)
        ensures { self.new ≡ take count self.old }
    {
        self.keys.truncate(count);
    }
}

fn read_keys(alloc: Global, elements: &[Element]) -> Result<Option<Keys>, AllocError>
    ensures { IfOk result (λ keys. keys ≡ keys_onto [] elements.now) }
{
    let mut keys = Keys::new(alloc);
    let mut rest = elements;
    'keys: while let Some((element, others)) = rest.split_first() {
        let Some(key) = key_of(element)? else {
            return Ok(None);
        };
        keys.push(key)?;
        rest = others;
    }
    Ok(Some(keys))
}

fn key_of(element: &Element) -> Result<Option<Key>, AllocError>
    ensures { IfOk result (λ key. key ≡ key_of element.now) }
{
    match element {
        Element::Bulk(bytes) => Ok(Key::new(bytes.clone()?)),
        _ => Ok(None),
    }
}
