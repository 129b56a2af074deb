//! Bytes that are written as a whole.
ghost use Rattle.std.specs.Prelude.{OnOk, OnErr};
ghost use Rattle.resp2.specs.Writing.{Writes, WritesPart};

use std::io;
use std::io::{ErrorKind, Write};

/// Writes all of the bytes. Where that fails, a beginning of them was written.
///
/// It does what `write_all` of `std` does, which tells nothing of the bytes where it fails.
pub(crate) fn write_whole<W: Write>(bytes: &[u8], out: &mut W) -> io::Result<()>
    ensures written { OnOk result (Writes W.contents out.old out.new bytes.now) }
    ensures begun { OnErr result (WritesPart W.contents out.old out.new bytes.now) }
{
    let mut rest = bytes;
    // A loop has to end, so this one counts its turns.
    'turns: for _ in 0..u64::MAX {
        if rest.is_empty() {
            return Ok(());
        }
        match out.write(rest) {
            Ok(0) => return Err(ErrorKind::WriteZero.into()),
            Ok(count) => rest = &rest[count..],
            Err(error) if error.kind() == ErrorKind::Interrupted => {}
            Err(error) => return Err(error),
        }
    }
    Err(ErrorKind::TimedOut.into())
}
