//! Bytes in pages.
ghost use Rattle.std.specs.Prelude.{◌≡◌, ℕ, ◌-◌, ◌<◌, ◌≤◌, [], ◌++◌, min, length, take, drop, vec_capacity, IfOk, OnOk};
ghost use Rattle.std.specs.List.{All};
ghost use Rattle.circular_buffer.specs.Buffer.{keep_last, last_item};
ghost use Rattle.repl_stream.specs.Pages.{bytes_in, bytes_of, IsPage, Keeps, KeepsOn, KeepsSame, PutsEmpty, TakesBlock, TurnsFull};

use byte_string::ByteString;
use circular_buffer::HeapCircularBuffer;
use std::alloc::{AllocError, Global};
use std::mem;

/// So many pages stand before the last one.
pub(crate) const PAGES: usize = 8;

/// Bytes in pages, one behind another. Only to make them takes memory.
#[derive(Drop)]
pub(crate) struct Pages {
    /// All but the last: empty ones, and then full ones.
    full: HeapCircularBuffer<Vec<u8>>,
    /// The last one, which is filled.
    last: Vec<u8>,
    /// How many bytes a page holds.
    len: usize,
}

impl Pages {
    /// Empty pages of that many bytes.
    pub fn new(alloc: Global, len: usize) -> Result<Pages, AllocError>
        requires { 0 < len }
        ensures keeps { IfOk result (λ pages. Keeps pages 0) }
        ensures len { IfOk result (λ pages. pages.len ≡ len) }
    {
        let full = empty_pages(alloc, len)?;
        let last = Vec::with_capacity(alloc, len)?;
        Ok(Pages { full, last, len })
    }

    /// Sees to it that the last page has room: where it is full, the first one is cleared and is the last one then.
    pub fn make_room(&mut self)
        requires some { 0 < self.old.len }
        requires count { (length self.old.full.items ≡ PAGES) × (self.old.full.capacity ≡ PAGES) }
        requires last { length self.old.last.items ≤ self.old.len }
        ensures keeps { KeepsOn self.old self.new }
        ensures bytes { KeepsSame self.old self.new }
        ensures room { length self.new.last.items < self.new.len }
        ensures len { self.new.len ≡ self.old.len }
    {
        if self.last.len() < self.len {
            return;
        }
        self.turn();
    }

    /// Puts as many of the bytes as find room behind those in the last page, and says how many.
    pub fn fill(&mut self, bytes: &[u8]) -> usize
        requires { IsPage self.old.len self.old.last }
        ensures count { result
            ≡ min (length bytes.now) (self.old.len - length self.old.last.items) }
        ensures last { self.new.last.items ≡ self.old.last.items ++ take result bytes.now }
        ensures block { vec_capacity self.old.last ≤ vec_capacity self.new.last }
        ensures same { (self.new.full ≡ self.old.full) × (self.new.len ≡ self.old.len) }
    {
        let count = bytes.len().min(self.len - self.last.len());
        let Ok(()) = self.last.extend_from_slice(&bytes[..count]) else {
            unreachable!();
        };
        count
    }

    /// Sees to it that the last page has bytes, if any page has: where it is empty, the one before it is the last one then.
    pub fn reopen(&mut self)
        requires some { 0 < self.old.len }
        requires count { (length self.old.full.items ≡ PAGES) × (self.old.full.capacity ≡ PAGES) }
        ensures keeps { (kept : ℕ) → Keeps self.old kept → Keeps self.new kept }
        ensures bytes { bytes_of self.new ≡ bytes_of self.old }
        ensures some { (kept : ℕ) → 0 < kept → Keeps self.old kept
            → 0 < length self.new.last.items }
        ensures len { self.new.len ≡ self.old.len }
    {
        if !self.last.is_empty() {
            return;
        }
        self.turn_back();
    }

    /// Drops bytes at the end of the last page, at most that many, and says how many.
    pub fn cut(&mut self, most: usize) -> usize
        ensures count { result ≡ min most (length self.old.last.items) }
        ensures last { self.new.last.items
            ≡ take (length self.old.last.items - result) self.old.last.items }
        ensures block { vec_capacity self.new.last ≡ vec_capacity self.old.last }
        ensures same { (self.new.full ≡ self.old.full) × (self.new.len ≡ self.old.len) }
    {
        let count = most.min(self.last.len());
        self.last.truncate(self.last.len() - count);
        count
    }

    // The first page, without its bytes, goes behind all others.
    fn turn(&mut self)
        requires some { 0 < length self.old.full.items }
        requires all { length self.old.full.items ≡ self.old.full.capacity }
        ensures full { TurnsFull self.old self.new }
        ensures empty { self.new.last.items ≡ [] }
        ensures block { TakesBlock self.old self.new }
        ensures len { self.new.len ≡ self.old.len }
    {
        let Some(mut page) = self.full.pop_front() else {
            unreachable!();
        };
        page.clear();
        mem::swap(&mut page, &mut self.last);
        self.full.push_back(page);
    }

    // The last page, without its bytes, goes before all others.
    fn turn_back(&mut self)
        requires some { 0 < length self.old.full.items }
        requires all { length self.old.full.items ≡ self.old.full.capacity }
        ensures last { last_item self.old.full.items ≡ Some self.new.last }
        ensures empty { PutsEmpty self.old self.new }
        ensures rest { drop 1 self.new.full.items
            ≡ take (length self.old.full.items - 1) self.old.full.items }
        ensures count { length self.new.full.items ≡ length self.old.full.items }
        ensures capacity { self.new.full.capacity ≡ self.old.full.capacity }
        ensures len { self.new.len ≡ self.old.len }
    {
        let Some(mut page) = self.full.pop_back() else {
            unreachable!();
        };
        mem::swap(&mut page, &mut self.last);
        page.clear();
        self.full.push_front(page);
    }

    /// At most so many of the last `count` bytes, in one string.
    pub fn part(&self, alloc: Global, count: usize, most: usize) -> Result<ByteString, AllocError>
        requires { length self.now.full.items ≡ PAGES }
        ensures { IfOk result (λ part. part ≡ take most (keep_last count (bytes_of self.now))) }
    {
        let before = count.saturating_sub(self.last.len());
        let mut part = Vec::with_capacity(alloc, most.min(count))?;
        append_last_pages(&mut part, &self.full, PAGES, before, most)?;
        append_last(&mut part, self.last.as_slice(), count, most)?;
        ByteString::from_vec(part)
    }
}

/// Puts the last `last` bytes of the first `count` pages behind the others, of which there are at most `most` then.
fn append_last_pages(
    bytes: &mut Vec<u8>,
    pages: &HeapCircularBuffer<Vec<u8>>,
    count: usize,
    last: usize,
    most: usize,
) -> Result<(), AllocError>
    requires there { count ≤ length pages.now.items }
    requires room { length bytes.old.items ≤ most }
    ensures ok { OnOk result (bytes.new.items
        ≡ take most (bytes.old.items ++ keep_last last (bytes_in (take count pages.now.items)))) }
{
    if count == 0 {
        return Ok(());
    }
    let Some(page) = pages.get(count - 1) else {
        unreachable!();
    };
    append_last_pages(
        bytes,
        pages,
        count - 1,
        last.saturating_sub(page.len()),
        most,
    )?;
    append_last(bytes, page.as_slice(), last, most)?;
    Ok(())
}

/// Puts the last `last` bytes of a page behind the others, of which there are at most `most` then.
fn append_last(bytes: &mut Vec<u8>, page: &[u8], last: usize, most: usize) -> Result<(), AllocError>
    requires { length bytes.old.items ≤ most }
    ensures { OnOk result
        (bytes.new.items ≡ take most (bytes.old.items ++ keep_last last page.now)) }
{
    let page = &page[page.len().saturating_sub(last)..];
    let room = most - bytes.len();
    bytes.extend_from_slice(&page[..page.len().min(room)])?;
    Ok(())
}

/// Empty pages of that many bytes.
fn empty_pages(alloc: Global, len: usize) -> Result<HeapCircularBuffer<Vec<u8>>, AllocError>
    ensures capacity { IfOk result (λ pages. pages.capacity ≡ PAGES) }
    ensures count { IfOk result (λ pages. length pages.items ≡ PAGES) }
    ensures pages { IfOk result (λ pages. All (IsPage len) pages.items) }
{
    let mut pages = HeapCircularBuffer::with_capacity(alloc, PAGES)?;
    for _ in 0..PAGES {
        pages.push_back(Vec::with_capacity(alloc, len)?);
    }
    Ok(pages)
}
