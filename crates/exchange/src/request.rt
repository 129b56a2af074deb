//! A request and its reply, as bytes.
ghost use Rattle.std.specs.Prelude.{◌≡◌, ◌<◌, length, OnOk, IfErr};
ghost use Rattle.resp2.specs.Counting.{inner_of};
ghost use Rattle.resp_values.specs.Request.{request_spelling};
ghost use Rattle.exchange.specs.Sender.{HasBegun, HasTaken};
ghost use Rattle.exchange.specs.Wire.{inlet_of, outlet_of, wire_of};
ghost use Rattle.exchange.specs.Exchange.{Exchanges, Receives, StopsSending, outcome_of};

use crate::buffers::Buffers;
use crate::outcome::Outcome;
use crate::sender::Sender;
use resp2::{Counting, Fault, ReplyReader, Words, append_request};
use std::io::{ErrorKind, Read, Write};

// Why not all of the bytes were handed over: the writer failed.
struct Unsent {
    // It took a byte before.
    handed: bool,
}

/// Writes the request, all of it at once where the writer takes it, and reads until there is a reply.
pub fn exchange<R: Read, W: Write>(
    words: &Words,
    reader: &mut Counting<R>,
    sender: &mut Sender<W>,
    replies: &mut ReplyReader,
    buffers: &mut Buffers,
) -> Outcome
    // None of its bytes is written twice.
    ensures begun { HasBegun W.contents sender.old sender.new (request_spelling words.now) }
    ensures exchanges { Exchanges words.now (wire_of R.remaining W.contents reader.old sender.old replies.old) result
        (wire_of R.remaining W.contents reader.new sender.new replies.new) }
{
    buffers.output.clear();
    let Ok(()) = append_request(words.as_slice(), &mut buffers.output) else {
        return Outcome::NoMemory { handed: false };
    };
    match hand_over(buffers.output.as_slice(), sender) {
        Ok(()) => receive(reader, replies, buffers.input.as_mut_slice()),
        Err(Unsent { handed }) => Outcome::Broken { handed },
    }
}

// Reads until there is a reply. The input holds the bytes of one read.
fn receive<R: Read>(
    reader: &mut Counting<R>,
    replies: &mut ReplyReader,
    input: &mut [u8],
) -> Outcome
    requires { 0 < length input.old }
    ensures { Receives (inlet_of R.remaining reader.old replies.old) result (inlet_of R.remaining reader.new replies.new) }
{
    // A loop has to end, so this one counts its reads. Each gives a byte at least, or is counted as failed.
    'reads: for _ in 0..u64::MAX {
        let count = match reader.read(input) {
            Ok(0) => return Outcome::Broken { handed: true },
            Ok(count) => count,
            Err(error) if error.kind() == ErrorKind::Interrupted => continue 'reads,
            Err(_) => return Outcome::Broken { handed: true },
        };
        if let Err(fault) = replies.feed(&input[..count]) {
            return outcome_of(fault);
        }
        match replies.next() {
            Ok(Some(reply)) => return Outcome::Reply(reply),
            Ok(None) => {}
            Err(fault) => return outcome_of(fault),
        }
    }
    Outcome::Broken { handed: true }
}

// What a fault of the bytes that came is to the client.
fn outcome_of(fault: Fault) -> Outcome
    ensures { result ≡ outcome_of fault }
{
    match fault {
        Fault::Memory => Outcome::NoMemory { handed: true },
        Fault::Protocol | Fault::TooLong => Outcome::BadReply,
    }
}

// Hands all bytes to the writer.
fn hand_over<W: Write>(bytes: &[u8], sender: &mut Sender<W>) -> Result<(), Unsent>
    requires { 0 < length bytes.now }
    ensures ok { OnOk result (HasTaken W.contents sender.old sender.new bytes.now) }
    ensures err { IfErr result (λ unsent. StopsSending unsent.handed bytes.now (outlet_of W.contents sender.old) (outlet_of W.contents sender.new)) }
{
    let mut rest = bytes;
    let mut handed = false;
    // A loop has to end, so this one counts its turns. In each a byte at least is taken, or the writer fails.
    'turns: for _ in 0..u64::MAX {
        match sender.send(rest) {
            Ok(count) => {
                handed = true;
                rest = &rest[count..];
                if rest.is_empty() {
                    return match sender.flush() {
                        Ok(()) => Ok(()),
                        Err(_) => Err(Unsent { handed }),
                    };
                }
            }
            Err(error) if error.kind() == ErrorKind::Interrupted => {}
            Err(_) => return Err(Unsent { handed }),
        }
    }
    Err(Unsent { handed })
}
