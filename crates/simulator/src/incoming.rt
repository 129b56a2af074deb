//! A script, as a reader gives it.
ghost use Rattle.std.specs.Prelude.{OnOk, OnErr, IfOk, IfErr};
ghost use Rattle.std.specs.Io.{ReadsAtMost};
ghost use Rattle.std.specs.Io.KnownBytes.{ReadConsumes};
ghost use Rattle.exchange.specs.Exchange.{HasFailed};
ghost use Rattle.resp2.specs.Counting.{inner_of, failures_of};
ghost use Rattle.simulator.specs.Playing.{IsUnread, MayFail, Reads, streams};

use crate::fault::SimulationFault;
use resp2::Counting;
use std::alloc::Global;
use std::io;
use std::io::{ErrorKind, Read};

// How many bytes are read at once.
const BLOCK: usize = 16384;

/// All bytes that the reader has left.
pub(crate) fn read_whole<R: Read>(
    alloc: Global,
    reader: &mut Counting<R>,
) -> Result<Vec<u8>, SimulationFault>
    ensures text { IfOk result
        (λ text. Reads (streams R.remaining reader.old reader.new) text.items) }
    ensures fault { IfErr result
        (λ fault. IsUnread fault (streams R.remaining reader.old reader.new)) }
{
    let mut text = Vec::new(alloc);
    let mut block = [0u8; BLOCK];
    'pieces: loop {
        let count = match read_block(reader, &mut block) {
            Ok(0) => return Ok(text),
            Ok(count) => count,
            Err(error) => return Err(SimulationFault::Unreadable(error)),
        };
        text.extend_from_slice(&block[..count])?;
    }
}

// Reads until a read isn't interrupted.
fn read_block<R: Read>(reader: &mut Counting<R>, block: &mut [u8]) -> io::Result<usize>
    ensures bound { ReadsAtMost result block.new }
    ensures bytes { ReadConsumes (R.remaining (inner_of reader.old))
        (R.remaining (inner_of reader.new)) result block.new }
    ensures ok { OnOk result (MayFail (failures_of reader.old) (failures_of reader.new)) }
    ensures err { OnErr result (HasFailed (failures_of reader.old) (failures_of reader.new)) }
{
    // A loop has to end, so this one counts its reads, each of which but the last is counted as failed.
    'reads: for _ in 0..u64::MAX {
        match reader.read(block) {
            Ok(count) => return Ok(count),
            Err(error) if error.kind() == ErrorKind::Interrupted => {}
            Err(error) => return Err(error),
        }
    }
    Err(ErrorKind::TimedOut.into())
}
