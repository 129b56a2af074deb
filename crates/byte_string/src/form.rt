//! Where the bytes of a string lie.
ghost use Rattle.std.specs.Prelude.{◌≡◌, ◌≤◌, ◌++◌, length, IfOk};
ghost use Rattle.byte_string.specs.Form.{IsForm, bytes_of};
ghost use Rattle.byte_string.specs.declared.block.TheConstants.{MOST_IN_BLOCK};

use crate::block::{Block, MOST_IN_BLOCK};
use crate::short::Short;
use std::alloc::{AllocError, Global};
use std::sync::Arc;

/// From this length on, in bytes, a string shares its bytes with its copies.
pub const LEAST_SHARED: usize = MOST_IN_BLOCK + 1;

/// The bytes of a string, wherever they lie.
#[derive(Drop)]
pub(crate) enum Form {
    // In place.
    Short(Short),
    // In a block of so many bytes. The system's library rounds blocks up to a multiple of sixteen, less eight.
    In40(Block<40>),
    In56(Block<56>),
    In72(Block<72>),
    In104(Block<104>),
    In136(Block<136>),
    In184(Block<184>),
    In248(Block<248>),
    // A buffer, which copies share, and which may have room behind the bytes.
    Buffer(Arc<Vec<u8>>),
}

impl Form {
    /// A copy of these bytes.
    #[inline(always)]
    pub fn of(alloc: Global, bytes: &[u8]) -> Result<Form, AllocError>
        ensures bytes { IfOk result (λ form. bytes_of form ≡ bytes.now) }
        ensures form { IfOk result (λ form. IsForm form) }
    {
        match Short::of(bytes) {
            Some(short) => Ok(Form::Short(short)),
            None => long_copy(alloc, bytes),
        }
    }

    /// These bytes, which aren't copied where they are many.
    pub fn from_vec(bytes: Vec<u8>) -> Result<Form, AllocError>
        ensures bytes { IfOk result (λ form. bytes_of form ≡ bytes.items) }
        ensures form { IfOk result (λ form. IsForm form) }
    {
        let alloc = *bytes.allocator();
        if bytes.len() < LEAST_SHARED {
            return Form::of(alloc, bytes.as_slice());
        }
        Ok(Form::Buffer(Arc::new(alloc, bytes)?))
    }

    /// The same bytes once more, which copies share where there are many.
    pub fn copy(&self) -> Result<Form, AllocError>
        requires { IsForm self.now }
        ensures bytes { IfOk result (λ form. bytes_of form ≡ bytes_of self.now) }
        ensures form { IfOk result (λ form. IsForm form) }
    {
        Ok(match self {
            Form::Short(short) => Form::Short(*short),
            Form::In40(block) => Form::In40(block.copy()?),
            Form::In56(block) => Form::In56(block.copy()?),
            Form::In72(block) => Form::In72(block.copy()?),
            Form::In104(block) => Form::In104(block.copy()?),
            Form::In136(block) => Form::In136(block.copy()?),
            Form::In184(block) => Form::In184(block.copy()?),
            Form::In248(block) => Form::In248(block.copy()?),
            Form::Buffer(buffer) => Form::Buffer(buffer.clone()?),
        })
    }

    /// The bytes.
    pub fn as_slice(&self) -> &[u8]
        requires { IsForm self.now }
        ensures { result.now ≡ bytes_of self.now }
    {
        match self {
            Form::Short(short) => short.as_slice(),
            Form::In40(block) => block.as_slice(),
            Form::In56(block) => block.as_slice(),
            Form::In72(block) => block.as_slice(),
            Form::In104(block) => block.as_slice(),
            Form::In136(block) => block.as_slice(),
            Form::In184(block) => block.as_slice(),
            Form::In248(block) => block.as_slice(),
            Form::Buffer(buffer) => buffer.as_slice(),
        }
    }
}

// A copy of bytes that are too many to lie in place. Out of line, so that a short copy stays short.
#[inline(never)]
fn long_copy(alloc: Global, bytes: &[u8]) -> Result<Form, AllocError>
    ensures bytes { IfOk result (λ form. bytes_of form ≡ bytes.now) }
    ensures form { IfOk result (λ form. IsForm form) }
{
    if bytes.len() > MOST_IN_BLOCK {
        return longest_copy(alloc, bytes);
    }
    block_copy(alloc, bytes)
}

// A copy in the smallest block that has room for the bytes.
fn block_copy(alloc: Global, bytes: &[u8]) -> Result<Form, AllocError>
    requires { length bytes.now ≤ MOST_IN_BLOCK }
    ensures bytes { IfOk result (λ form. bytes_of form ≡ bytes.now) }
    ensures form { IfOk result (λ form. IsForm form) }
{
    match bytes.len() {
        0..=40 => Ok(Form::In40(Block::of(alloc, bytes)?)),
        41..=56 => Ok(Form::In56(Block::of(alloc, bytes)?)),
        57..=72 => Ok(Form::In72(Block::of(alloc, bytes)?)),
        73..=104 => Ok(Form::In104(Block::of(alloc, bytes)?)),
        105..=136 => Ok(Form::In136(Block::of(alloc, bytes)?)),
        137..=184 => Ok(Form::In184(Block::of(alloc, bytes)?)),
        _ => Ok(Form::In248(Block::of(alloc, bytes)?)),
    }
}

// A copy of bytes that no block of a fixed size has room for.
fn longest_copy(alloc: Global, bytes: &[u8]) -> Result<Form, AllocError>
    ensures bytes { IfOk result (λ form. bytes_of form ≡ bytes.now) }
    ensures form { IfOk result (λ form. IsForm form) }
{
    let mut buffer = Vec::with_capacity(alloc, bytes.len())?;
    buffer.extend_from_slice(bytes)?;
    Ok(Form::Buffer(Arc::new(alloc, buffer)?))
}

/// All bytes in a buffer that has room for as many again.
pub(crate) fn grown(alloc: Global, first: &[u8], more: &[u8]) -> Result<Form, AllocError>
    ensures bytes { IfOk result (λ form. bytes_of form ≡ first.now ++ more.now) }
    ensures form { IfOk result (λ form. IsForm form) }
{
    let len = first.len().saturating_add(more.len());
    let mut buffer = Vec::with_capacity(alloc, len.saturating_mul(2))?;
    buffer.extend_from_slice(first)?;
    buffer.extend_from_slice(more)?;
    Ok(Form::Buffer(Arc::new(alloc, buffer)?))
}
