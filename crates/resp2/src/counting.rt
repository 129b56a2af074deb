//! A reader or writer whose failures are counted.
ghost use Rattle.std.specs.Prelude.{◌≡◌, OnOk, OnErr};
ghost use Rattle.std.specs.Borrow.{sem, follows};
ghost use Rattle.std.specs.Io.{ReadsAtMost, WritesAtMost};
ghost use Rattle.std.specs.Io.KnownBytes.{Keeps, ReadConsumes, WriteAppends};
ghost use Rattle.resp2.specs.contracts.counting.Counting.{the_row};
ghost use Rattle.resp2.specs.Counting.{inner_of, failures_of, failed_of, with_inner, HasRisen};
ghost use Rattle.resp2.specs.Writing.{Sends, SendsPart};

use crate::whole::write_whole;
use std::io;
use std::io::{Read, Write};
use std::snapshot::Snapshot;

/// A reader or writer, with a count of its calls that failed.
///
/// An error that a caller dropped on the way has still been counted. Clauses see, too, how the call that failed last left the
/// reader or writer: so they can say that nothing was written since.
#[derive(Drop)]
pub struct Counting<D> {
    pub(crate) inner: D,
    pub(crate) failures: u64,
    // For clauses alone. Where none has failed it is the reader or writer as it was at first.
    pub(crate) failed: Snapshot<D>,
}

impl<D> Counting<D> {
    /// The reader or writer, with no failure counted.
    pub fn new(inner: D) -> Counting<D>
        ensures inner { inner_of result ≡ inner }
        ensures none { failures_of result ≡ 0 }
    {
        let failed = Snapshot::of(&inner);
        Counting {
            inner,
            failures: 0,
            failed,
        }
    }

    /// How many calls failed, up to `u64::MAX`.
    pub fn failures(&self) -> u64
        ensures { result ≡ failures_of self.now }
    {
        self.failures
    }

    /// The reader or writer.
    pub fn get_ref(&self) -> &D
        ensures { result.now ≡ inner_of self.now }
    {
        &self.inner
    }

    /// The reader or writer, for calls that aren't counted.
    pub fn get_mut(&mut self) -> &mut D
        ensures value { result.now ≡ inner_of self.old }
        ensures* writes_back { sem 𝓛 (follows (the_row D.row) D.row self.entry.ghost_name
            result.ghost_name (with_inner self.old)) }
    {
        &mut self.inner
    }

    /// The outcome of a call as it is; an error has been counted.
    pub(crate) fn counted<T>(&mut self, outcome: io::Result<T>) -> io::Result<T>
        ensures same { result ≡ outcome }
        ensures inner { inner_of self.new ≡ inner_of self.old }
        ensures ok { OnOk result (self.new ≡ self.old) }
        ensures err { OnErr result (HasRisen (failures_of self.old) (failures_of self.new)) }
        ensures left { OnErr result (failed_of self.new ≡ inner_of self.new) }
    {
        if outcome.is_err() {
            self.failures = self.failures.saturating_add(1);
            self.failed = Snapshot::of(&self.inner);
        }
        outcome
    }

    /// The reader or writer, without the count.
    pub fn into_inner(self) -> D
        ensures { result ≡ inner_of self }
    {
        self.inner
    }
}

impl<R: Read> Read for Counting<R> {
    ghost remaining = { λ counting. R.remaining counting.inner };

    fn read(&mut self, buf: &mut [u8]) -> io::Result<usize>
        ensures bound { ReadsAtMost result buf.new }
        ensures bytes { ReadConsumes (R.remaining (inner_of self.old)) (R.remaining (inner_of self.new)) result buf.new }
        ensures ok { OnOk result (failures_of self.new ≡ failures_of self.old) }
        ensures err { OnErr result (HasRisen (failures_of self.old) (failures_of self.new)) }
        ensures left { OnErr result (failed_of self.new ≡ inner_of self.new) }
    {
        let outcome = self.inner.read(buf);
        self.counted(outcome)
    }
}

impl<W: Write> Write for Counting<W> {
    ghost contents = { λ counting. W.contents counting.inner };

    fn write(&mut self, buf: &[u8]) -> io::Result<usize>
        ensures bound { WritesAtMost result buf.now }
        ensures bytes { WriteAppends (W.contents (inner_of self.old)) (W.contents (inner_of self.new)) result buf.now }
        ensures ok { OnOk result (failures_of self.new ≡ failures_of self.old) }
        ensures err { OnErr result (HasRisen (failures_of self.old) (failures_of self.new)) }
        ensures left { OnErr result (failed_of self.new ≡ inner_of self.new) }
    {
        let outcome = self.inner.write(buf);
        self.counted(outcome)
    }

    fn flush(&mut self) -> io::Result<()>
        ensures bytes { Keeps (W.contents (inner_of self.old)) (W.contents (inner_of self.new)) }
        ensures ok { OnOk result (failures_of self.new ≡ failures_of self.old) }
        ensures err { OnErr result (HasRisen (failures_of self.old) (failures_of self.new)) }
        ensures left { OnErr result (failed_of self.new ≡ inner_of self.new) }
    {
        let outcome = self.inner.flush();
        self.counted(outcome)
    }

    fn write_all(&mut self, buf: &[u8]) -> io::Result<()>
        ensures bytes { OnOk result (Sends W.contents self.old self.new buf.now) }
        ensures begun { OnErr result (SendsPart W.contents self.old self.new buf.now) }
        ensures ok { OnOk result (failures_of self.new ≡ failures_of self.old) }
        ensures err { OnErr result (HasRisen (failures_of self.old) (failures_of self.new)) }
        ensures left { OnErr result (failed_of self.new ≡ inner_of self.new) }
    {
        let outcome = write_whole(buf, &mut self.inner);
        self.counted(outcome)
    }
}
