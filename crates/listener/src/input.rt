//! Room for what one read gives.
ghost use Rattle.std.specs.Prelude.{◌<◌, IfOk, vec_len};

use std::alloc::{AllocError, Global};

// So much at first: a client that is idle, or sends little at a time, costs no more.
const LEAST: usize = 1_024;

// Room that is filled grows up to this, which is what Redis reads, too: each read costs a call of the system, however little it gives.
const MOST: usize = 16_384;

// How much the room grows and shrinks at once.
const FACTOR: usize = 4;

// How many reads in a row that need less make it shrink.
const PATIENCE: u32 = 16;

/// Room for what one read gives. It grows where reads fill it, and shrinks again where they give little.
#[derive(Drop)]
pub(crate) struct Input {
    pub(crate) room: Vec<u8>,
    // How many reads in a row needed less room.
    small: u32,
}

impl Input {
    pub(crate) fn new(alloc: Global) -> Result<Input, AllocError>
        ensures { IfOk result (λ input. 0 < vec_len input.room) }
    {
        Ok(Input {
            room: vec![in alloc; 0u8; LEAST]?,
            small: 0,
        })
    }

    /// Fits the room to a read that gave so many bytes, as far as there is memory.
    pub(crate) fn fit(&mut self, count: usize)
        requires { 0 < vec_len self.old.room }
        ensures { 0 < vec_len self.new.room }
    {
        let len = self.room.len();
        if count == len {
            self.small = 0;
            self.resize(len.saturating_mul(FACTOR).min(MOST));
        } else if count > len / FACTOR {
            self.small = 0;
        } else {
            self.small = self.small.saturating_add(1);
            if self.small >= PATIENCE {
                self.small = 0;
                self.resize((len / FACTOR).max(LEAST));
            }
        }
    }

    fn resize(&mut self, len: usize)
        requires room { 0 < vec_len self.old.room }
        requires len { 0 < len }
        ensures { 0 < vec_len self.new.room }
    {
        if len == self.room.len() {
            return;
        }
        let alloc = *self.room.allocator();
        if let Ok(room) = vec![in alloc; 0u8; len] {
            self.room = room;
        }
    }
}
