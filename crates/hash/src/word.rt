//! A field or a value where it lies.
ghost use Rattle.std.specs.Prelude.{◌≡◌, length, nat_eq, IfOk};
ghost use Rattle.std.specs.Cmp.Lexicographic.{pointwise, nat_list_eq_equiv};
ghost use Rattle.std.specs.Cmp.{partial_equiv_from_equiv};

use byte_string::ByteString;
use std::alloc::{AllocError, Global};
use std::fmt;
use std::marker::Model;

#[derive(Clone, Copy)]
enum Form<'a> {
    // A string of its own.
    String(&'a ByteString),
    // Some of the bytes of a block.
    Packed(&'a [u8]),
}

/// A field or a value where it lies in its hash.
pub struct Word<'a> {
    form: Form<'a>,
}

impl<'a> Model for Word<'a> {
    ghost use Rattle.std.specs.Prelude.{List, ℕ};

    ghost Value = { List ℕ };

    ghost use Rattle.hash.specs.Word.{bytes_of_word};

    ghost view = { λ word. bytes_of_word word.form };
}

impl Drop for Word<'_> {
    fn drop(self) {
        let Word { form: _ } = self;
    }
}

impl<'a> Word<'a> {
    pub(crate) fn string(string: &'a ByteString) -> Word<'a>
        ensures { result ≡ string.now }
    {
        Word {
            form: Form::String(string),
        }
    }

    pub(crate) fn packed(bytes: &'a [u8]) -> Word<'a>
        ensures { result ≡ bytes.now }
    {
        Word {
            form: Form::Packed(bytes),
        }
    }

    /// The bytes, in place.
    pub fn as_slice(&self) -> &'a [u8]
        ensures { result.now ≡ self.now }
    {
        match self.form {
            Form::String(string) => string.as_slice(),
            Form::Packed(bytes) => bytes,
        }
    }

    /// The number of bytes.
    pub fn len(&self) -> usize
        ensures { result ≡ length self.now }
    {
        self.as_slice().len()
    }

    /// The word as a string of its own. A long one may share its bytes with the hash.
    pub fn to_byte_string(&self, alloc: Global) -> Result<ByteString, AllocError>
        ensures { IfOk result (λ string. string ≡ self.now) }
    {
        match self.form {
            Form::String(string) => string.clone(),
            Form::Packed(bytes) => ByteString::copy_from_slice(alloc, bytes),
        }
    }
}

impl Clone for Word<'_> {
    ghost is_clone = { λ word copy. copy ≡ word };

    fn clone(&self) -> Result<Self, AllocError> {
        Ok(Word { form: self.form })
    }
}

impl PartialEq for Word<'_> {
    ghost eq = { pointwise nat_eq };

    ghost laws = { partial_equiv_from_equiv nat_list_eq_equiv };

    fn eq(&self, other: &Self) -> bool {
        self.as_slice() == other.as_slice()
    }
}

impl Eq for Word<'_> {
    ghost laws = { nat_list_eq_equiv };
}

impl fmt::Debug for Word<'_> {
    fn fmt<W: fmt::Write>(&self, f: &mut fmt::Formatter<W>) -> fmt::Result {
        f.debug_list().entries(self.as_slice()).finish()
    }
}
