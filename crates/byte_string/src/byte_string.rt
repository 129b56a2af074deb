//! A byte string.
ghost use Rattle.std.specs.Prelude.{◌≡◌, ◌≤◌, ◌++◌, [], length, nat_eq, refl, Some, IfOk, OnOk, OnErr};
ghost use Rattle.std.specs.Ordering.{nat_cmp};
ghost use Rattle.std.specs.Cmp.Lexicographic.{pointwise, slice_cmp, bytes_decides, nat_list_eq_equiv, nat_list_cmp_total, texts_ties, texts_po};
ghost use Rattle.std.specs.Cmp.{partial_equiv_from_equiv};
ghost use Rattle.std.specs.Hash as fed;
ghost use Rattle.std.proofs.Common.{ap};
ghost use Rattle.byte_string.specs.Form.{IsForm, bytes_of};
ghost use Rattle.byte_string.specs.declared.short.TheConstants.{MOST_SHORT};

use crate::form::{Form, grown};
use crate::order::order;
use crate::short::Short;
use std::alloc::{AllocError, Global};
use std::cmp::Ordering;
use std::fmt;
use std::hash::{Hash, Hasher};
use std::marker::Model;
use std::sync::Arc;

/// Any bytes, in 24 bytes of its own.
///
/// At most 22 bytes lie in place, so a copy of them takes no memory. More have a block of their own, which copies share
/// from 249 bytes on. `append` copies a string whose block is shared, and else puts the bytes behind it in place.
pub struct ByteString {
    form: Form,
}

impl Drop for ByteString {
    #[inline(always)]
    fn drop(self) {
        let ByteString { form } = self;
        match form {
            Form::Short(_) => {}
            long => drop_long(long),
        }
    }
}

// It is out of line, so that a short string is dropped by a test.
#[inline(never)]
fn drop_long(form: Form) {
    drop(form);
}

impl Model for ByteString {
    ghost use Rattle.std.specs.Prelude.{List, ℕ};

    ghost Value = { List ℕ };

    ghost use Rattle.byte_string.specs.Form.{IsForm, bytes_of};

    ghost view = { λ string. bytes_of string.form };

    ghost invariant = { λ string. IsForm string.form };
}

impl ByteString {
    /// The empty string.
    pub fn new() -> ByteString
        ensures { result ≡ [] }
    {
        ByteString::inline(b"")
    }

    /// A string of so few bytes that they lie in place. It takes no memory.
    pub fn inline(bytes: &[u8]) -> ByteString
        requires { length bytes.now ≤ MOST_SHORT }
        ensures { result ≡ bytes.now }
    {
        let Some(short) = Short::of(bytes) else {
            unreachable!();
        };
        ByteString {
            form: Form::Short(short),
        }
    }

    /// The bytes of a buffer, which the string shares from now on.
    pub fn from_shared(buffer: Arc<Vec<u8>>) -> ByteString
        ensures { result ≡ buffer.value.items }
    {
        ByteString {
            form: Form::Buffer(buffer),
        }
    }

    /// A copy of these bytes.
    #[inline(always)]
    pub fn copy_from_slice(alloc: Global, bytes: &[u8]) -> Result<ByteString, AllocError>
        ensures { IfOk result (λ string. string ≡ bytes.now) }
    {
        let form = Form::of(alloc, bytes)?;
        Ok(ByteString { form })
    }

    /// These bytes, which aren't copied where they are many.
    pub fn from_vec(bytes: Vec<u8>) -> Result<ByteString, AllocError>
        ensures { IfOk result (λ string. string ≡ bytes.items) }
    {
        let form = Form::from_vec(bytes)?;
        Ok(ByteString { form })
    }

    /// The bytes, in place.
    pub fn as_slice(&self) -> &[u8]
        ensures { result.now ≡ self.now }
    {
        self.form.as_slice()
    }

    /// The number of bytes.
    pub fn len(&self) -> usize
        ensures { result ≡ length self.now }
    {
        self.as_slice().len()
    }

    /// Puts the bytes behind the string, which stays as it is where memory is refused.
    ///
    /// A string that stays short takes no memory. Any other one then has a buffer of its own with room behind it, which
    /// doubles when it is used up: so the string itself is copied only now and then, and where a copy shares its buffer.
    pub fn append(&mut self, alloc: Global, bytes: &[u8]) -> Result<(), AllocError>
        ensures ok { OnOk result (self.new ≡ self.old ++ bytes.now) }
        ensures err { OnErr result (self.new ≡ self.old) }
    {
        if bytes.is_empty() {
            return Ok(());
        }
        let form = match &mut self.form {
            Form::Short(short) => match short.with(bytes) {
                Some(short) => Form::Short(short),
                None => grown(alloc, short.as_slice(), bytes)?,
            },
            Form::Buffer(buffer) => match Arc::get_mut(buffer) {
                Some(buffer) => return buffer.extend_from_slice(bytes),
                None => grown(alloc, buffer.as_slice(), bytes)?,
            },
            other => grown(alloc, other.as_slice(), bytes)?,
        };
        self.form = form;
        Ok(())
    }
}

// The order where one of two strings is long. Out of line, so that a search among short keys stays short.
#[inline(never)]
fn long_order(a: &[u8], b: &[u8]) -> Ordering
    ensures { result ≡ slice_cmp nat_cmp a.now b.now }
{
    order(a, b)
}

impl Clone for ByteString {
    ghost is_clone = { λ string copy. copy ≡ string };

    #[inline(always)]
    fn clone(&self) -> Result<ByteString, AllocError> {
        let form = match &self.form {
            Form::Short(short) => Form::Short(*short),
            long => long.copy()?,
        };
        Ok(ByteString { form })
    }
}

impl PartialEq for ByteString {
    ghost eq = { pointwise nat_eq };

    ghost laws = { partial_equiv_from_equiv nat_list_eq_equiv };

    fn eq(&self, other: &ByteString) -> bool {
        match (&self.form, &other.form) {
            (Form::Short(short), Form::Short(other)) => short.order(other).is_eq(),
            _ => self.as_slice() == other.as_slice(),
        }
    }
}

impl Eq for ByteString {
    ghost laws = { nat_list_eq_equiv };
}

impl PartialOrd for ByteString {
    ghost partial_cmp = { λ x y. Some (slice_cmp nat_cmp x y) };

    ghost laws = { texts_po };

    fn partial_cmp(&self, other: &ByteString) -> Option<Ordering> {
        Some(self.cmp(other))
    }
}

impl Ord for ByteString {
    ghost cmp = { slice_cmp nat_cmp };

    ghost total = { nat_list_cmp_total };

    ghost matches_partial_cmp = { λ x y. refl };

    ghost matches_eq = { texts_ties };

    fn cmp(&self, other: &ByteString) -> Ordering {
        match (&self.form, &other.form) {
            (Form::Short(short), Form::Short(other)) => short.order(other),
            _ => long_order(self.as_slice(), other.as_slice()),
        }
    }
}

impl Hash for ByteString {
    ghost hash_input = { fed.slice fed.u8 };

    ghost respects_eq = { λ x y same. ap (fed.slice fed.u8) ((bytes_decides x y).0 same) };

    fn hash<H: Hasher>(&self, state: &mut H) {
        self.as_slice().hash(state);
    }
}

impl fmt::Debug for ByteString {
    fn fmt<W: fmt::Write>(&self, f: &mut fmt::Formatter<W>) -> fmt::Result {
        f.debug_list().entries(self.as_slice()).finish()
    }
}
