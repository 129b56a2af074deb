//! Bytes in one block of memory.
ghost use Rattle.std.specs.Prelude.{◌≡◌, ◌≤◌, ◌+◌, ◌++◌, [], length, take, drop, IfOk, OnOk, OnErr};
ghost use Rattle.hash.specs.Block.{kept_in};
ghost use Rattle.hash.specs.Bytes.{spliced};
ghost use Rattle.hash.specs.declared.sized_block.TheConstants.{MOST_IN_BLOCK};

use crate::count::Count;
use crate::sized_block::{MOST_IN_BLOCK, SizedBlock};
use std::alloc::{AllocError, Global};
use std::marker::Model;

// The blocks of a fixed size have their number of bytes before them. The system's library rounds blocks up to a multiple
// of sixteen, less eight.
#[derive(Drop)]
enum Form {
    // No bytes, and no block.
    Empty(Count),
    In23(Count, Box<SizedBlock<23>>),
    In39(Count, Box<SizedBlock<39>>),
    In55(Count, Box<SizedBlock<55>>),
    In71(Count, Box<SizedBlock<71>>),
    In87(Count, Box<SizedBlock<87>>),
    In103(Count, Box<SizedBlock<103>>),
    In119(Count, Box<SizedBlock<119>>),
    In135(Count, Box<SizedBlock<135>>),
    In167(Count, Box<SizedBlock<167>>),
    In199(Count, Box<SizedBlock<199>>),
    In247(Count, Box<SizedBlock<247>>),
    // More bytes. Their place and their number have a small block of their own.
    Longer(Count, Box<Vec<u8>>),
}

/// Some bytes in a block that is hardly larger than they are, behind a pointer. What is counted of them lies beside the
/// pointer, where it takes no memory of its own.
pub struct Block {
    form: Form,
}

impl Drop for Block {
    fn drop(self) {
        let Block { form: _ } = self;
    }
}

impl Model for Block {
    ghost use Rattle.hash.specs.Block.{Kept, kept_in};

    ghost Value = { Kept };

    ghost view = { λ block. kept_in block.form };
}

impl Block {
    /// No bytes. They take no memory.
    pub fn new(count: Count) -> Block
        ensures { result ≡ record { bytes = []; count = count } }
    {
        Block {
            form: Form::Empty(count),
        }
    }

    /// A copy of these bytes.
    pub fn copied(alloc: Global, bytes: &[u8], count: Count) -> Result<Block, AllocError>
        ensures { IfOk result (λ block. block ≡ record { bytes = bytes.now; count = count }) }
    {
        if bytes.len() <= MOST_IN_BLOCK {
            return Ok(Block {
                form: sized(alloc, bytes, count)?,
            });
        }
        Block::of(alloc, Vec::from_slice(alloc, bytes)?, count)
    }

    /// These bytes. Many stay in their buffer.
    pub fn of(alloc: Global, bytes: Vec<u8>, count: Count) -> Result<Block, AllocError>
        ensures { IfOk result (λ block. block ≡ record { bytes = bytes.items; count = count }) }
    {
        let form = if bytes.len() <= MOST_IN_BLOCK {
            sized(alloc, bytes.as_slice(), count)?
        } else {
            Form::Longer(count, Box::new(alloc, bytes)?)
        };
        Ok(Block { form })
    }

    /// Takes these bytes in place of its own. Many take over the small block of as many.
    pub fn take_over(
        &mut self,
        alloc: Global,
        bytes: Vec<u8>,
        count: Count,
    ) -> Result<(), AllocError>
        ensures ok { OnOk result (self.new ≡ record { bytes = bytes.items; count = count }) }
        ensures err { OnErr result (self.new ≡ self.old) }
    {
        match &mut self.form {
            Form::Longer(kept, buffer) if bytes.len() > MOST_IN_BLOCK => {
                *kept = count;
                **buffer = bytes;
            }
            _ => *self = Block::of(alloc, bytes, count)?,
        }
        Ok(())
    }

    /// The bytes.
    pub fn as_slice(&self) -> &[u8]
        ensures { result.now ≡ self.now.bytes }
    {
        match &self.form {
            Form::Empty(_) => b"",
            Form::In23(_, block) => block.as_slice(),
            Form::In39(_, block) => block.as_slice(),
            Form::In55(_, block) => block.as_slice(),
            Form::In71(_, block) => block.as_slice(),
            Form::In87(_, block) => block.as_slice(),
            Form::In103(_, block) => block.as_slice(),
            Form::In119(_, block) => block.as_slice(),
            Form::In135(_, block) => block.as_slice(),
            Form::In167(_, block) => block.as_slice(),
            Form::In199(_, block) => block.as_slice(),
            Form::In247(_, block) => block.as_slice(),
            Form::Longer(_, buffer) => buffer.as_slice(),
        }
    }

    /// What is counted of the bytes.
    pub fn count(&self) -> Count
        ensures { result ≡ self.now.count }
    {
        match &self.form {
            Form::Empty(count) => *count,
            Form::In23(count, _) => *count,
            Form::In39(count, _) => *count,
            Form::In55(count, _) => *count,
            Form::In71(count, _) => *count,
            Form::In87(count, _) => *count,
            Form::In103(count, _) => *count,
            Form::In119(count, _) => *count,
            Form::In135(count, _) => *count,
            Form::In167(count, _) => *count,
            Form::In199(count, _) => *count,
            Form::In247(count, _) => *count,
            Form::Longer(count, _) => *count,
        }
    }

    /// Writes these bytes over those from the place on.
    pub fn write(&mut self, at: usize, bytes: &[u8])
        requires { at + length bytes.now ≤ length self.old.bytes }
        ensures bytes { self.new.bytes ≡ spliced self.old.bytes at (at + length bytes.now) bytes.now }
        ensures count { self.new.count ≡ self.old.count }
    {
        match &mut self.form {
            Form::Empty(_) => {}
            Form::In23(_, block) => block.write(at, bytes),
            Form::In39(_, block) => block.write(at, bytes),
            Form::In55(_, block) => block.write(at, bytes),
            Form::In71(_, block) => block.write(at, bytes),
            Form::In87(_, block) => block.write(at, bytes),
            Form::In103(_, block) => block.write(at, bytes),
            Form::In119(_, block) => block.write(at, bytes),
            Form::In135(_, block) => block.write(at, bytes),
            Form::In167(_, block) => block.write(at, bytes),
            Form::In199(_, block) => block.write(at, bytes),
            Form::In247(_, block) => block.write(at, bytes),
            Form::Longer(_, buffer) => write_over(buffer, at, bytes),
        }
    }

    /// Takes out the bytes from the one place to the other.
    pub fn cut(&mut self, from: usize, to: usize)
        requires from { from ≤ to }
        requires to { to ≤ length self.old.bytes }
        ensures bytes { self.new.bytes ≡ take from self.old.bytes ++ drop to self.old.bytes }
        ensures count { self.new.count ≡ self.old.count }
    {
        match &mut self.form {
            Form::Empty(_) => {}
            Form::In23(_, block) => block.cut(from, to),
            Form::In39(_, block) => block.cut(from, to),
            Form::In55(_, block) => block.cut(from, to),
            Form::In71(_, block) => block.cut(from, to),
            Form::In87(_, block) => block.cut(from, to),
            Form::In103(_, block) => block.cut(from, to),
            Form::In119(_, block) => block.cut(from, to),
            Form::In135(_, block) => block.cut(from, to),
            Form::In167(_, block) => block.cut(from, to),
            Form::In199(_, block) => block.cut(from, to),
            Form::In247(_, block) => block.cut(from, to),
            Form::Longer(_, buffer) => cut_from(buffer, from, to),
        }
    }

    /// Keeps this beside the bytes.
    pub fn keep(&mut self, new: Count)
        ensures { self.new ≡ record { bytes = self.old.bytes; count = new } }
    {
        match &mut self.form {
            Form::Empty(count) => *count = new,
            Form::In23(count, _) => *count = new,
            Form::In39(count, _) => *count = new,
            Form::In55(count, _) => *count = new,
            Form::In71(count, _) => *count = new,
            Form::In87(count, _) => *count = new,
            Form::In103(count, _) => *count = new,
            Form::In119(count, _) => *count = new,
            Form::In135(count, _) => *count = new,
            Form::In167(count, _) => *count = new,
            Form::In199(count, _) => *count = new,
            Form::In247(count, _) => *count = new,
            Form::Longer(count, _) => *count = new,
        }
    }
}

// The bytes in the smallest block of a fixed size that has room for them.
fn sized(alloc: Global, bytes: &[u8], count: Count) -> Result<Form, AllocError>
    requires { length bytes.now ≤ MOST_IN_BLOCK }
    ensures { IfOk result (λ form. kept_in form ≡ record { bytes = bytes.now; count = count }) }
{
    match bytes.len() {
        0 => Ok(Form::Empty(count)),
        1..=23 => Ok(Form::In23(count, SizedBlock::boxed(alloc, bytes)?)),
        24..=39 => Ok(Form::In39(count, SizedBlock::boxed(alloc, bytes)?)),
        40..=55 => Ok(Form::In55(count, SizedBlock::boxed(alloc, bytes)?)),
        56..=71 => Ok(Form::In71(count, SizedBlock::boxed(alloc, bytes)?)),
        72..=87 => Ok(Form::In87(count, SizedBlock::boxed(alloc, bytes)?)),
        _ => sized_over_87(alloc, bytes, count),
    }
}

fn sized_over_87(alloc: Global, bytes: &[u8], count: Count) -> Result<Form, AllocError>
    requires { length bytes.now ≤ MOST_IN_BLOCK }
    ensures { IfOk result (λ form. kept_in form ≡ record { bytes = bytes.now; count = count }) }
{
    match bytes.len() {
        0..=103 => Ok(Form::In103(count, SizedBlock::boxed(alloc, bytes)?)),
        104..=119 => Ok(Form::In119(count, SizedBlock::boxed(alloc, bytes)?)),
        120..=135 => Ok(Form::In135(count, SizedBlock::boxed(alloc, bytes)?)),
        136..=167 => Ok(Form::In167(count, SizedBlock::boxed(alloc, bytes)?)),
        168..=199 => Ok(Form::In199(count, SizedBlock::boxed(alloc, bytes)?)),
        _ => Ok(Form::In247(count, SizedBlock::boxed(alloc, bytes)?)),
    }
}

/// Writes these bytes over those from the place on.
pub fn write_over(buffer: &mut Vec<u8>, at: usize, bytes: &[u8])
    requires { at + length bytes.now ≤ length buffer.old.items }
    ensures { buffer.new.items ≡ spliced buffer.old.items at (at + length bytes.now) bytes.now }
{
    buffer[at..at + bytes.len()].copy_from_slice(bytes);
}

/// Takes out the bytes from the one place to the other.
pub fn cut_from(buffer: &mut Vec<u8>, from: usize, to: usize)
    requires from { from ≤ to }
    requires to { to ≤ length buffer.old.items }
    ensures { buffer.new.items ≡ take from buffer.old.items ++ drop to buffer.old.items }
{
    let left = buffer.len() - (to - from);
    buffer[from..].rotate_left(to - from);
    buffer.truncate(left);
}
