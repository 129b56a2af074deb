//! The batch of replies that go out together, and what is written behind it.
ghost use Rattle.std.specs.Prelude.{◌≡◌, ◌≢◌, ◌+◌, ◌≤◌, [], false, vec_len, OnOk, IfOk, IfErr, drop};
ghost use Rattle.resp_values.specs.Reply.{reply_spelling};
ghost use Rattle.listener.specs.Calls.{GrowsIf, PutsSome, SendsAll, Writes};
ghost use Rattle.listener.specs.Conversation.{error_bytes};
ghost use Rattle.listener.specs.Streams.{change};
ghost use Rattle.listener.specs.Turns.{held_bytes, reply_in, unsent};

use crate::fault::ConnFault;
use crate::outgoing::Held;
use command_table::ErrorLine;
use node_gate::Answered;
use node_step::Response;
use resp2::{Counting, Element, Reply, append_reply, send_reply};
use std::io;
use std::io::{ErrorKind, Write};

// A longer value is written from where it stands: to copy it would cost more than a write of its own.
const LONG_VALUE: usize = 16_384;

/// What a write did that doesn't wait.
#[derive(Clone, Copy, PartialEq, Eq, Debug)]
pub(crate) enum Wrote {
    /// There was nothing to write.
    Nothing,
    /// The writer took some.
    Some,
    /// A signal came before the writer took some.
    Interrupted,
    /// The writer takes nothing now.
    Blocked,
}

/// Appends the reply in the response, if it is short, where memory allows, and says whether it did.
pub(crate) fn fits(response: &Response, batch: &mut Vec<u8>) -> bool
    ensures { GrowsIf result (change batch.old.items batch.new.items) (reply_in response.now) }
{
    match response {
        Response::Replied(answer) => fits_in(&answer.reply, batch),
        _ => false,
    }
}

/// Appends a short reply, where memory allows, and says whether it did.
pub(crate) fn fits_in(reply: &Reply, batch: &mut Vec<u8>) -> bool
    ensures { GrowsIf result (change batch.old.items batch.new.items) (reply_spelling reply.now) }
{
    if is_long(reply) {
        return false;
    }
    append_reply(reply, batch).is_ok()
}

/// Appends the line, where memory allows, and says whether it did.
pub(crate) fn line_fits(line: ErrorLine, batch: &mut Vec<u8>) -> bool
    ensures { GrowsIf result (change batch.old.items batch.new.items) (error_bytes line) }
{
    let reply = line.reply();
    fits_in(&reply, batch)
}

/// Appends what is held, however long it is, where memory allows, and says whether it did.
pub(crate) fn puts_held<S: Answered>(held: &Held<S>, batch: &mut Vec<u8>) -> bool
    ensures put { GrowsIf result (change batch.old.items batch.new.items)
        (held_bytes S.gave held.now) }
    ensures parked { held.now ≡ Held.Parked → result ≡ false }
{
    match held {
        Held::Step(step) => match step.response() {
            Response::Replied(answer) => append_reply(&answer.reply, batch).is_ok(),
            _ => false,
        },
        Held::Reply(reply) => append_reply(reply, batch).is_ok(),
        Held::Nothing => false,
        Held::Parked => false,
    }
}

/// Writes what is left of the batch, of which so many bytes were sent.
pub(crate) fn flush<W: Write>(
    batch: &mut Vec<u8>,
    sent: &mut usize,
    writer: &mut Counting<W>,
) -> io::Result<()>
    ensures sends { SendsAll result W.Write writer.old writer.new (drop sent.old batch.old.items) }
    ensures empty { OnOk result ((batch.new.items ≡ []) × (sent.new ≡ 0)) }
{
    if let Some(rest) = batch.get(*sent..)
        && !rest.is_empty()
    {
        writer.write_all(rest)?;
    }
    batch.clear();
    *sent = 0;
    Ok(())
}

/// Writes what is held behind an empty batch.
pub(crate) fn send_held<W: Write, S: Answered>(
    held: &Held<S>,
    batch: &mut Vec<u8>,
    writer: &mut Counting<W>,
) -> io::Result<()>
    requires { batch.old.items ≡ [] }
    ensures sends { SendsAll result W.Write writer.old writer.new (held_bytes S.gave held.now) }
    ensures empty { OnOk result (batch.new.items ≡ []) }
{
    match held {
        Held::Step(step) => match step.response() {
            Response::Replied(answer) => send_alone(&answer.reply, batch, writer),
            _ => Ok(()),
        },
        Held::Reply(reply) => send_alone(reply, batch, writer),
        Held::Nothing => Ok(()),
        Held::Parked => Ok(()),
    }
}

/// Writes a reply behind an empty batch.
pub(crate) fn send_alone<W: Write>(
    reply: &Reply,
    batch: &mut Vec<u8>,
    writer: &mut Counting<W>,
) -> io::Result<()>
    requires { batch.old.items ≡ [] }
    ensures sends { SendsAll result W.Write writer.old writer.new (reply_spelling reply.now) }
    ensures empty { OnOk result (batch.new.items ≡ []) }
{
    // A reply of many parts is one write where it is short, and not one for each part.
    if fits_in(reply, batch) {
        return flush(batch, &mut 0, writer);
    }
    send_reply(reply, writer)
}

/// Writes some of what is left of the batch, of which so many bytes were sent.
pub(crate) fn write_once<W: Write>(
    batch: &mut Vec<u8>,
    sent: &mut usize,
    writer: &mut Counting<W>,
) -> Result<Wrote, ConnFault>
    ensures put { PutsSome result W.Write writer.old writer.new unsent
        (batch.old.items, sent.old) (batch.new.items, sent.new) }
    ensures wrote { IfOk result (Writes writer.old writer.new unsent
        (batch.old.items, sent.old) (batch.new.items, sent.new)) }
    ensures fault { IfErr result (λ fault. fault ≡ ConnFault.Writer) }
{
    let rest = rest_of(batch.as_slice(), *sent);
    if rest.is_empty() {
        return Ok(Wrote::Nothing);
    }
    match writer.write(rest) {
        Ok(0) => write_on(batch, sent, writer),
        Ok(count) => {
            note_sent(batch, sent, count);
            Ok(Wrote::Some)
        }
        Err(error) => match error.kind() {
            ErrorKind::WouldBlock => Ok(Wrote::Blocked),
            ErrorKind::Interrupted => Ok(Wrote::Interrupted),
            _ => Err(ConnFault::Writer),
        },
    }
}

// Writes the rest to a writer that took nothing of it. One that takes nothing once more has failed, and that is counted.
fn write_on<W: Write>(
    batch: &mut Vec<u8>,
    sent: &mut usize,
    writer: &mut Counting<W>,
) -> Result<Wrote, ConnFault>
    requires { drop sent.old batch.old.items ≢ [] }
    ensures put { PutsSome result W.Write writer.old writer.new unsent
        (batch.old.items, sent.old) (batch.new.items, sent.new) }
    ensures wrote { IfOk result (Writes writer.old writer.new unsent
        (batch.old.items, sent.old) (batch.new.items, sent.new)) }
    ensures fault { IfErr result (λ fault. fault ≡ ConnFault.Writer) }
{
    match flush(batch, sent, writer) {
        Ok(()) => Ok(Wrote::Some),
        Err(_) => Err(ConnFault::Writer),
    }
}

// What is left of the batch, of which so many bytes were sent.
fn rest_of(batch: &[u8], sent: usize) -> &[u8]
    ensures { result.now ≡ drop sent batch.now }
{
    match batch.get(sent..) {
        Some(rest) => rest,
        None => &[],
    }
}

// Notes that so many more bytes of the batch were sent.
fn note_sent(batch: &mut Vec<u8>, sent: &mut usize, count: usize)
    requires { sent.old + count ≤ vec_len batch.old }
    ensures { drop sent.new batch.new.items ≡ drop (sent.old + count) batch.old.items }
{
    *sent += count;
    if *sent == batch.len() {
        batch.clear();
        *sent = 0;
    }
}

fn is_long(reply: &Reply) -> bool {
    match reply {
        Reply::Bulk(bytes) => bytes.len() > LONG_VALUE,
        Reply::Array(array) => array.as_slice().iter().any(has_long_value),
        Reply::Simple(_) | Reply::Error(_) | Reply::Integer(_) | Reply::Null => false,
    }
}

fn has_long_value(element: &Element) -> bool {
    matches!(element, Element::Bulk(bytes) if bytes.len() > LONG_VALUE)
}
