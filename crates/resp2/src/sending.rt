//! Requests as bytes on a connection, as a client sends them.
ghost use Rattle.std.specs.Prelude.{◌≡◌, OnOk, OnErr};
ghost use Rattle.resp_values.specs.Request.{bulks_spelling, request_spelling};
ghost use Rattle.resp2.specs.Counting.{inner_of, failures_of, failed_of, HasRisen};
ghost use Rattle.resp2.specs.Writing.{Writes, WritesPart, Sends, SendsPart};

use crate::counting::Counting;
use crate::parts::{Parts, bulk};
use crate::writing::write_parts;
use byte_string::ByteString;
use itoa::Buffer;
use resp_values::Words;
use std::io;
use std::io::Write;

/// Writes the request as the protocol spells it, at the end of what `out` holds: an array of bulk
/// strings, a word each.
///
/// It allocates nothing and copies the words' bytes into `out` alone. An error is the one that
/// `out` gave; a beginning of the request is then written.
pub fn write_words<W: Write>(words: &Words, out: &mut W) -> io::Result<()>
    ensures written { OnOk result (Writes W.contents out.old out.new (request_spelling words.now)) }
    ensures begun { OnErr result (WritesPart W.contents out.old out.new (request_spelling words.now)) }
{
    let words = words.as_slice();
    let mut digits = Buffer::new();
    write_parts(
        &Parts::Line(b'*', digits.format(words.len()).as_bytes()),
        out,
    )?;
    write_bulks(words, out)
}

/// Writes the request where failures are counted: an error is one that was counted.
pub fn send_words<W: Write>(words: &Words, out: &mut Counting<W>) -> io::Result<()>
    ensures written { OnOk result (Sends W.contents out.old out.new (request_spelling words.now)) }
    ensures begun { OnErr result (SendsPart W.contents out.old out.new (request_spelling words.now)) }
    ensures ok { OnOk result (failures_of out.new ≡ failures_of out.old) }
    ensures err { OnErr result (HasRisen (failures_of out.old) (failures_of out.new)) }
    ensures left { OnErr result (failed_of out.new ≡ inner_of out.new) }
{
    let outcome = write_words(words, &mut out.inner);
    out.counted(outcome)
}

fn write_bulks<W: Write>(words: &[ByteString], out: &mut W) -> io::Result<()>
    ensures written { OnOk result (Writes W.contents out.old out.new (bulks_spelling words.now)) }
    ensures begun { OnErr result (WritesPart W.contents out.old out.new (bulks_spelling words.now)) }
{
    for word in words {
        write_parts(&bulk(word, &mut Buffer::new()), out)?;
    }
    Ok(())
}
