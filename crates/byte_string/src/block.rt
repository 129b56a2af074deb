//! Some bytes in a block of a fixed size.
ghost use Rattle.std.specs.Prelude.{◌≡◌, ◌≤◌, length, take, IfOk};
ghost use Rattle.byte_string.specs.Block.{IsBlock};
ghost use Rattle.byte_string.specs.declared.block.TheConstants.{MOST_IN_BLOCK};

use std::alloc::{AllocError, Global};

/// The largest number of bytes that lie in a block of a fixed size.
pub(crate) const MOST_IN_BLOCK: usize = 248;

/// At most `N` bytes: the first `len` of a block of that size.
#[derive(Drop)]
pub(crate) struct Block<const N: usize> {
    len: u8,
    bytes: Box<[u8; N]>,
}

impl<const N: usize> Block<N> {
    /// A block with these bytes.
    pub fn of(alloc: Global, source: &[u8]) -> Result<Block<N>, AllocError>
        requires fits { length source.now ≤ N }
        requires small { N ≤ MOST_IN_BLOCK }
        ensures bytes { IfOk result (λ block. take block.len block.bytes.value ≡ source.now) }
        ensures block { IfOk result (λ block. IsBlock block) }
    {
        let mut bytes = [0; N];
        bytes[..source.len()].copy_from_slice(source);
        Ok(Block {
            len: source.len() as u8,
            bytes: Box::new(alloc, bytes)?,
        })
    }

    /// A block with the same bytes.
    pub fn copy(&self) -> Result<Block<N>, AllocError>
        requires { IsBlock self.now }
        ensures bytes { IfOk result (λ copy. take copy.len copy.bytes.value ≡ take self.now.len self.now.bytes.value) }
        ensures block { IfOk result (λ copy. IsBlock copy) }
    {
        Ok(Block {
            len: self.len,
            bytes: Box::new(*Box::allocator(&self.bytes), *self.bytes)?,
        })
    }

    /// The bytes.
    pub fn as_slice(&self) -> &[u8]
        requires { IsBlock self.now }
        ensures { result.now ≡ take self.now.len self.now.bytes.value }
    {
        &self.bytes[..self.len as usize]
    }
}
