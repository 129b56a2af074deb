//! Replies as bytes on a connection.
ghost use Rattle.std.specs.Prelude.{◌≡◌, OnOk, OnErr};
ghost use Rattle.resp2.specs.Counting.{inner_of, failures_of, failed_of, HasRisen};
ghost use Rattle.resp_values.specs.Reply.{reply_spelling};
ghost use Rattle.resp2.specs.Writing.{Writes, WritesPart, Sends, SendsPart};
ghost use Rattle.resp2.specs.Parts.{parts_spelling, joined, elements_spelling};

use crate::counting::Counting;
use crate::parts::{Parts, Pieces, parts_of, pieces_of};
use crate::whole::write_whole;
use itoa::Buffer;
use resp_values::{Element, Reply};
use std::io;
use std::io::Write;

/// Writes the reply as the protocol spells it, at the end of what `out` holds.
///
/// It allocates nothing and copies the reply's bytes into `out` alone. An error is the one that
/// `out` gave; a beginning of the reply is then written.
pub fn write_reply<W: Write>(reply: &Reply, out: &mut W) -> io::Result<()>
    ensures written { OnOk result (Writes W.contents out.old out.new (reply_spelling reply.now)) }
    ensures begun { OnErr result (WritesPart W.contents out.old out.new (reply_spelling reply.now)) }
{
    let mut digits = Buffer::new();
    match pieces_of(reply, &mut digits) {
        Pieces::One(parts) => write_parts(&parts, out),
        Pieces::Many(elements) => write_elements(elements, out),
    }
}

/// Writes the reply where failures are counted: an error is one that was counted.
#[inline(never)]
pub fn send_reply<W: Write>(reply: &Reply, out: &mut Counting<W>) -> io::Result<()>
    ensures written { OnOk result (Sends W.contents out.old out.new (reply_spelling reply.now)) }
    ensures begun { OnErr result (SendsPart W.contents out.old out.new (reply_spelling reply.now)) }
    ensures ok { OnOk result (failures_of out.new ≡ failures_of out.old) }
    ensures err { OnErr result (HasRisen (failures_of out.old) (failures_of out.new)) }
    ensures left { OnErr result (failed_of out.new ≡ inner_of out.new) }
{
    let outcome = write_reply(reply, &mut out.inner);
    out.counted(outcome)
}

fn write_elements<W: Write>(elements: &[Element], out: &mut W) -> io::Result<()>
    ensures written { OnOk result (Writes W.contents out.old out.new (elements_spelling elements.now)) }
    ensures begun { OnErr result (WritesPart W.contents out.old out.new (elements_spelling elements.now)) }
{
    for element in elements {
        write_parts(&parts_of(element, &mut Buffer::new()), out)?;
    }
    Ok(())
}

pub(crate) fn write_parts<W: Write>(parts: &Parts, out: &mut W) -> io::Result<()>
    ensures written { OnOk result (Writes W.contents out.old out.new (parts_spelling parts.now)) }
    ensures begun { OnErr result (WritesPart W.contents out.old out.new (parts_spelling parts.now)) }
{
    match parts {
        Parts::Line(mark, text) => write_slices(&[&[*mark], text, b"\r\n"], out),
        Parts::Bulk(len, bytes) => write_slices(&[b"$", len, b"\r\n", bytes, b"\r\n"], out),
    }
}

fn write_slices<W: Write>(slices: &[&[u8]], out: &mut W) -> io::Result<()>
    ensures written { OnOk result (Writes W.contents out.old out.new (joined slices.now)) }
    ensures begun { OnErr result (WritesPart W.contents out.old out.new (joined slices.now)) }
{
    for slice in slices {
        write_whole(slice, out)?;
    }
    Ok(())
}
