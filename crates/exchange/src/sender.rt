//! A writer of requests, whose failures are counted.
ghost use Rattle.std.specs.Prelude.{◌≡◌, ◌<◌, ◌≤◌, length, IfOk, OnOk, OnErr};
ghost use Rattle.std.specs.Io.KnownBytes.{Keeps};
ghost use Rattle.resp2.specs.Counting.{HasRisen};
ghost use Rattle.exchange.specs.Sender.{HasTakenSome, failures_of, writer_of};

use std::io;
use std::io::{ErrorKind, Write};

/// A writer, with a count of its calls that failed: also of those that took none of the bytes.
#[derive(Debug, Drop)]
pub struct Sender<W> {
    writer: W,
    failures: u64,
}

impl<W> Sender<W> {
    /// The writer, with no failure counted.
    pub fn new(writer: W) -> Sender<W>
        ensures writer { writer_of result ≡ writer }
        ensures none { failures_of result ≡ 0 }
    {
        Sender {
            writer,
            failures: 0,
        }
    }
}

impl<W: Write> Sender<W> {
    /// Hands over the beginning of the bytes, and says how many were taken, which is one at least.
    pub(crate) fn send(&mut self, bytes: &[u8]) -> io::Result<usize>
        requires { 0 < length bytes.now }
        ensures some { IfOk result (λ count. (0 < count) × (count ≤ length bytes.now)) }
        ensures bytes { HasTakenSome W.contents self.old self.new result bytes.now }
        ensures ok { OnOk result (failures_of self.new ≡ failures_of self.old) }
        ensures err { OnErr result (HasRisen (failures_of self.old) (failures_of self.new)) }
    {
        let outcome = match self.writer.write(bytes) {
            Ok(0) => Err(ErrorKind::WriteZero.into()),
            outcome => outcome,
        };
        if outcome.is_err() {
            self.failures = self.failures.saturating_add(1);
        }
        outcome
    }

    /// Has the writer pass on what it keeps back.
    pub(crate) fn flush(&mut self) -> io::Result<()>
        ensures bytes { Keeps (W.contents (writer_of self.old)) (W.contents (writer_of self.new)) }
        ensures ok { OnOk result (failures_of self.new ≡ failures_of self.old) }
        ensures err { OnErr result (HasRisen (failures_of self.old) (failures_of self.new)) }
    {
        let outcome = self.writer.flush();
        if outcome.is_err() {
            self.failures = self.failures.saturating_add(1);
        }
        outcome
    }
}
