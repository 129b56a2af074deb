//! Room for the bytes of one exchange.
ghost use Rattle.std.specs.Prelude.{◌<◌, length};

use std::alloc::{AllocError, Global};

// A read gives so many bytes at most, as Redis' client library reads them.
const READ_SIZE: usize = 16_384;

/// Room for the bytes of one exchange, kept for the next.
#[derive(Drop)]
pub struct Buffers {
    // The bytes of one read.
    pub(crate) input: Vec<u8>,
    // The bytes of the last request.
    pub(crate) output: Vec<u8>,

    ghost room: { 0 < length input.items },
}

impl Buffers {
    /// Room for reads of 16 KiB. That for requests grows with them.
    pub fn new(alloc: Global) -> Result<Buffers, AllocError> {
        Ok(Buffers {
            input: vec![in alloc; 0u8; READ_SIZE]?,
            output: Vec::new(alloc),
        })
    }
}
