//! The last bytes that came, in pages.
ghost use Rattle.std.specs.Prelude.{◌≡◌, ◌+◌, ◌<◌, ◌≤◌, [], length, take, drop, IfOk};
ghost use Rattle.circular_buffer.specs.Buffer.{buffer, keep_last};
ghost use Rattle.repl_stream.specs.Kept.{extended};

use crate::pages::{PAGES, Pages};
use byte_string::ByteString;
use std::alloc::{AllocError, Global};
use std::marker::Model;

/// The last bytes that came, as many as its capacity. Only to make it takes memory.
///
/// They lie in pages, into which they are copied as whole runs. When the last page is full, the first one is cleared and is
/// filled next: the other full ones hold as many bytes as are kept, so it has none of these.
#[derive(Drop)]
pub(crate) struct PageRing {
    pages: Pages,
    /// How many of the last bytes in the pages are kept. Those before them are left there until their page is cleared.
    kept: usize,
    /// How many are kept at most.
    capacity: usize,
}

impl Model for PageRing {
    ghost use Rattle.std.specs.Prelude.{ℕ, ◌*◌, ◌<◌, ◌≤◌};
    ghost use Rattle.circular_buffer.specs.Buffer.{Buffer, buffer, keep_last};
    ghost use Rattle.repl_stream.specs.declared.pages.TheConstants.{PAGES};

    ghost Value = { Buffer ℕ };

    ghost use Rattle.repl_stream.specs.Pages.{bytes_of, Keeps};

    ghost view = { λ ring. buffer (keep_last ring.kept (bytes_of ring.pages)) ring.capacity };

    ghost invariant = { λ ring. Keeps ring.pages ring.kept × (ring.kept ≤ ring.capacity)
        × (ring.capacity ≤ PAGES * ring.pages.len) × (0 < ring.pages.len) };
}

impl PageRing {
    /// A ring that will keep the last `capacity` bytes. It has none.
    pub fn with_capacity(alloc: Global, capacity: usize) -> Result<PageRing, AllocError>
        ensures { IfOk result (λ ring. ring ≡ buffer [] capacity) }
    {
        let pages = Pages::new(alloc, capacity / PAGES + 1)?;
        Ok(PageRing {
            pages,
            kept: 0,
            capacity,
        })
    }

    /// How many bytes it has.
    pub fn len(&self) -> usize
        ensures { result ≡ length self.now.items }
    {
        self.kept
    }

    /// How many it keeps at most.
    pub fn capacity(&self) -> usize
        ensures { result ≡ self.now.capacity }
    {
        self.capacity
    }

    /// Puts the bytes behind its own, of which those in front go that find no room.
    pub fn extend_from_slice(&mut self, bytes: &[u8])
        ensures { self.new ≡ extended self.old bytes.now }
    {
        let mut rest = &bytes[bytes.len().saturating_sub(self.capacity)..];
        while !rest.is_empty() {
            let count = self.fill(rest);
            rest = &rest[count..];
        }
    }

    // As many of the bytes as find room in the last page.
    fn fill(&mut self, bytes: &[u8]) -> usize
        requires { 0 < length bytes.now }
        ensures count { (0 < result) × (result ≤ length bytes.now) }
        ensures filled { self.new ≡ extended self.old (take result bytes.now) }
        ensures within { length self.new.items ≤ self.new.capacity }
    {
        self.pages.make_room();
        let count = self.pages.fill(bytes);
        self.kept = self.kept.saturating_add(count).min(self.capacity);
        count
    }

    /// Keeps the first `len` bytes.
    pub fn truncate_back(&mut self, len: usize)
        ensures { self.new ≡ buffer (take len self.old.items) self.old.capacity }
    {
        while self.kept > len {
            self.cut(self.kept - len);
        }
    }

    // Drops the last bytes that lie in one page, at most that many.
    fn cut(&mut self, most: usize)
        requires some { 0 < most }
        requires there { most ≤ length self.old.items }
        ensures cut { self.new
            ≡ buffer (take (length self.new.items) self.old.items) self.old.capacity }
        ensures fewer { length self.new.items < length self.old.items }
        ensures within { length self.old.items ≤ length self.new.items + most }
    {
        self.pages.reopen();
        self.kept -= self.pages.cut(most);
    }

    /// Drops every byte.
    pub fn clear(&mut self)
        ensures { self.new ≡ buffer [] self.old.capacity }
    {
        self.kept = 0;
    }

    /// At most so many of its bytes, without those in front, in one string.
    pub fn part(&self, alloc: Global, before: u64, most: usize) -> Result<ByteString, AllocError>
        ensures { IfOk result (λ part. part ≡ take most (drop before self.now.items)) }
    {
        let left = (self.kept as u64).saturating_sub(before) as usize;
        self.pages.part(alloc, left, most)
    }
}
