//! A few bytes in place.
ghost use Rattle.std.specs.Prelude.{◌≡◌, ◌≤◌, ◌+◌, ◌++◌, length, take, IfSome, IsSome, ◌↔◌};
ghost use Rattle.std.specs.Ordering.{nat_cmp};
ghost use Rattle.std.specs.Cmp.Lexicographic.{slice_cmp};
ghost use Rattle.byte_string.specs.Short.{IsShort};
ghost use Rattle.byte_string.specs.declared.short.TheConstants.{MOST_SHORT};

use crate::order::order;
use std::cmp::Ordering;

/// The largest number of bytes that lie in place: a string of 24 bytes has room for them beside their number and its form.
pub const MOST_SHORT: usize = 22;

/// At most [`MOST_SHORT`] bytes: the first `len` of the array, with zeros behind them.
#[derive(Clone, Copy)]
pub struct Short {
    len: u8,
    bytes: [u8; MOST_SHORT],
}

impl Short {
    /// These bytes, or None where there are too many.
    pub fn of(source: &[u8]) -> Option<Short>
        ensures bytes { IfSome result (λ short. take short.len short.bytes ≡ source.now) }
        ensures short { IfSome result IsShort }
        ensures some { IsSome result ↔ (length source.now ≤ MOST_SHORT) }
    {
        if source.len() > MOST_SHORT {
            return None;
        }
        let mut bytes = [0; MOST_SHORT];
        bytes[..source.len()].copy_from_slice(source);
        Some(Short {
            len: source.len() as u8,
            bytes,
        })
    }

    /// These bytes with more behind them, or None where they are too many together.
    pub fn with(self, more: &[u8]) -> Option<Short>
        requires { IsShort self }
        ensures bytes { IfSome result (λ short. take short.len short.bytes ≡ take self.len self.bytes ++ more.now) }
        ensures short { IfSome result IsShort }
        ensures some { IsSome result ↔ (self.len + length more.now ≤ MOST_SHORT) }
    {
        let len = self.len as usize;
        if more.len() > MOST_SHORT - len {
            return None;
        }
        let end = len + more.len();
        let mut bytes = self.bytes;
        bytes[len..end].copy_from_slice(more);
        Some(Short {
            len: end as u8,
            bytes,
        })
    }

    /// The bytes.
    pub fn as_slice(&self) -> &[u8]
        requires { IsShort self.now }
        ensures { result.now ≡ take self.now.len self.now.bytes }
    {
        &self.bytes[..self.len as usize]
    }

    /// The order of the bytes.
    ///
    /// The arrays are compared whole. The zeros behind a string come before what a longer one has there, unless those
    /// are zeros too: then the lengths decide.
    pub fn order(&self, other: &Short) -> Ordering
        requires this { IsShort self.now }
        requires other { IsShort other.now }
        ensures { result ≡ slice_cmp nat_cmp (take self.now.len self.now.bytes) (take other.now.len other.now.bytes) }
    {
        order(&self.bytes, &other.bytes).then_with(|| self.len.cmp(&other.len))
    }
}
