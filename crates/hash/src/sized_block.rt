//! Some bytes in a block of a fixed size.
ghost use Rattle.std.specs.Prelude.{◌≡◌, ◌≤◌, ◌+◌, ◌++◌, length, take, drop, IfOk};
ghost use Rattle.hash.specs.Bytes.{spliced};

use std::alloc::{AllocError, Global};
use std::marker::Model;

/// The largest number of bytes that lie in a block of a fixed size.
pub const MOST_IN_BLOCK: usize = 247;

/// At most `N` bytes, and their number in one byte before them.
#[derive(Drop)]
pub struct SizedBlock<const N: usize> {
    len: u8,
    bytes: [u8; N],
}

impl<const N: usize> Model for SizedBlock<N> {
    ghost use Rattle.std.specs.Prelude.{◌≤◌, List, ℕ, take};

    ghost Value = { List ℕ };

    ghost view = { λ block. take block.len block.bytes };

    ghost invariant = { λ block. block.len ≤ N };
}

impl<const N: usize> SizedBlock<N> {
    fn of(source: &[u8]) -> SizedBlock<N>
        requires fits { length source.now ≤ N }
        requires small { N ≤ 255 }
        ensures { result ≡ source.now }
    {
        let mut bytes = [0; N];
        bytes[..source.len()].copy_from_slice(source);
        SizedBlock {
            len: source.len() as u8,
            bytes,
        }
    }

    /// These bytes, in a block.
    pub fn boxed(alloc: Global, source: &[u8]) -> Result<Box<SizedBlock<N>>, AllocError>
        requires fits { length source.now ≤ N }
        requires small { N ≤ 255 }
        ensures { IfOk result (λ block. block.value ≡ source.now) }
    {
        Box::new(alloc, SizedBlock::of(source)).map_err(AllocError::from)
    }

    /// The bytes.
    pub fn as_slice(&self) -> &[u8]
        ensures { result.now ≡ self.now }
    {
        &self.bytes[..self.len as usize]
    }

    /// Writes these bytes over those from the place on.
    pub fn write(&mut self, at: usize, source: &[u8])
        requires { at + length source.now ≤ length self.old }
        ensures { self.new ≡ spliced self.old at (at + length source.now) source.now }
    {
        let bytes = &mut self.bytes[..self.len as usize];
        bytes[at..at + source.len()].copy_from_slice(source);
    }

    /// Takes out the bytes from the one place to the other.
    pub fn cut(&mut self, from: usize, to: usize)
        requires from { from ≤ to }
        requires to { to ≤ length self.old }
        ensures { self.new ≡ take from self.old ++ drop to self.old }
    {
        let left = self.len as usize - (to - from);
        let bytes = &mut self.bytes[..self.len as usize];
        bytes[from..].rotate_left(to - from);
        self.len = left as u8;
    }
}
