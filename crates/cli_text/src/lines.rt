//! The lines of an input, as they come.
ghost use Rattle.std.specs.Prelude.{◌<◌, ◌≤◌, length, vec_len, IfSome};
ghost use Rattle.resp_values.specs.declared.words.TheConstants.{MOST_REQUEST_BYTES};

use crate::fault::{LineFault, NoCommand};
use resp_values::MOST_REQUEST_BYTES;
use std::io;
use std::io::{BufRead, ErrorKind};

/// Puts the next line into the list, without the newline at its end. It gives whether there is one.
///
/// The last line may go without a newline. A line that is longer than a request may be isn't read to its end.
pub(crate) fn read_line<B: BufRead>(reader: &mut B, line: &mut Vec<u8>) -> Result<bool, LineFault>
    ensures short { vec_len line.new ≤ MOST_REQUEST_BYTES }
{
    line.clear();
    // A loop has to end, so this one counts its pieces.
    'pieces: for _ in 0..u64::MAX {
        match read_piece(reader, line)? {
            Piece::Beginning => {}
            Piece::Whole => return Ok(true),
            Piece::Nothing => return Ok(!line.is_empty()),
        }
    }
    Err(LineFault::Unreadable(io::Error::from(ErrorKind::TimedOut)))
}

// What was read of a line.
enum Piece {
    // Its end is still to come.
    Beginning,
    // Its end was read.
    Whole,
    // Nothing, because the input has ended.
    Nothing,
}

// Puts behind the line what the reader has of it.
fn read_piece<B: BufRead>(reader: &mut B, line: &mut Vec<u8>) -> Result<Piece, LineFault>
    requires { vec_len line.old ≤ MOST_REQUEST_BYTES }
    ensures short { vec_len line.new ≤ MOST_REQUEST_BYTES }
{
    let bytes = match reader.fill_buf() {
        Ok(bytes) => bytes,
        Err(error) if error.kind() == ErrorKind::Interrupted => return Ok(Piece::Beginning),
        Err(error) => return Err(LineFault::Unreadable(error)),
    };
    if bytes.is_empty() {
        return Ok(Piece::Nothing);
    }
    match place_of_newline(bytes) {
        Some(place) => {
            add(line, &bytes[..place])?;
            reader.consume(place + 1);
            Ok(Piece::Whole)
        }
        None => {
            let len = bytes.len();
            add(line, bytes)?;
            reader.consume(len);
            Ok(Piece::Beginning)
        }
    }
}

fn place_of_newline(bytes: &[u8]) -> Option<usize>
    ensures within { IfSome result (λ place. place < length bytes.now) }
{
    bytes.iter().position(|byte| *byte == b'\n')
}

// Puts the bytes behind the line, if it doesn't become too long.
fn add(line: &mut Vec<u8>, bytes: &[u8]) -> Result<(), LineFault>
    requires { vec_len line.old ≤ MOST_REQUEST_BYTES }
    ensures short { vec_len line.new ≤ MOST_REQUEST_BYTES }
{
    if bytes.len() > MOST_REQUEST_BYTES - line.len() {
        return Err(LineFault::from(NoCommand::TooLong));
    }
    line.extend_from_slice(bytes)?;
    Ok(())
}
