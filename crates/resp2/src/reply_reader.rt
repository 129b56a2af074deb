//! Replies from bytes that come in any pieces.
ghost use Rattle.std.specs.Prelude.{◌≡◌, ◌++◌, ◌∷◌, [], IsTrue, Some, None, IfErr, IfNone, OnOk, OnErr, unwrap_or};
ghost use Rattle.resp_header.specs.declared.fault.Fault.TheVariants.{Memory, Protocol};
ghost use Rattle.resp_values.specs.Reply.{elements_of, is_reply};
ghost use Rattle.resp2.specs.ReplyProgress.{TakesReply, IsReading, HasHeader, is_lasting, part_front, SamePart, reply_ahead};
ghost use Rattle.resp2.specs.ReplyReader.{HandsOutReply, WaitsForReply, FailsReplyBy};
ghost use Rattle.resp2.specs.Answers.{IfOkSome, OnOkNone};
ghost use Rattle.resp2.specs.Reader.{FailsAgainBy};

use crate::array_part::ArrayPart;
use crate::leaf::{Begun, take_leaf};
use bytes::BytesMut;
use resp_header::Fault;
use resp_values::{Element, Reply};
use std::alloc::Global;
use std::marker::Model;

/// The deepest that arrays may nest in a reply that is read.
pub const MOST_DEPTH: usize = 4;

/// The greatest count of an array's replies, and the greatest length of a bulk string in bytes, in a
/// reply that is read.
pub const MOST_COUNT: usize = 4_294_967_295;

/// A reader of replies, as a client has it: `feed` it bytes as they come, and take replies by `next`
/// until there is none.
///
/// What is whole is consumed at once, so that each byte is looked at a few times at most, however the
/// bytes are cut.
pub struct ReplyReader {
    /// What was fed and not yet consumed.
    input: BytesMut,
    /// What was read of the element in front of the input.
    begun: Begun,
    /// The array that was begun before that.
    array: ArrayPart,
    /// A bad byte was found.
    is_broken: bool,
}

impl Model for ReplyReader {
    ghost use Rattle.resp2.specs.Reader.{ReaderState};

    ghost Value = { ReaderState };

    ghost use Rattle.std.specs.Prelude.{Some, None, if◌then◌else◌};
    ghost use Rattle.resp2.specs.ReplyProgress.{IsReading, part_front};
    ghost use Rattle.resp_header.specs.declared.fault.Fault.TheVariants.{Protocol};

    ghost view = { λ reader. record {
      pending = part_front reader.array reader.begun reader.input.items;
      fault = if reader.is_broken then Some Protocol else None;
    } };

    ghost invariant = { λ reader. IsReading reader.array reader.begun reader.input.items };
}

// It does what the derive would. Written out it is one call wherever a reader is let go.
impl Drop for ReplyReader {
    fn drop(self) {
        let ReplyReader {
            input: _input,
            begun: _,
            array: _array,
            is_broken: _,
        } = self;
    }
}

impl ReplyReader {
    /// A reader that was fed nothing. It allocates as bytes come.
    pub fn new(alloc: Global) -> ReplyReader
        ensures pending { result.pending ≡ [] }
        ensures sound { result.fault ≡ None }
    {
        ReplyReader {
            input: BytesMut::new(alloc),
            begun: Begun::nothing(),
            array: ArrayPart::nothing(alloc),
            is_broken: false,
        }
    }

    /// Takes the next bytes, all of them or none.
    ///
    /// An error is the fault that a `next` found, or `Fault::Memory`.
    pub fn feed(&mut self, bytes: &[u8]) -> Result<(), Fault>
        ensures sound { OnOk result (self.old.fault ≡ None) }
        ensures fed { OnOk result (self.new ≡ record self.old { pending = self.old.pending ++ bytes.now }) }
        ensures fault { IfErr result (λ fault. fault ≡ unwrap_or self.old.fault Fault.Memory) }
        ensures unchanged { OnErr result (self.new ≡ self.old) }
    {
        if self.is_broken {
            return Err(Fault::Protocol);
        }
        self.input.extend_from_slice(bytes)?;
        Ok(())
    }

    /// The reply in front, once it is whole, or None where more bytes have to come.
    ///
    /// After `Fault::Memory` the call can be made again: nothing is lost. `Fault::Protocol` says that
    /// no reply can come of the bytes, of which one is the first that none can have there, and it ends
    /// the reader. Another error doesn't come.
    pub fn next(&mut self) -> Result<Option<Reply>, Fault>
        ensures reply { IfOkSome result (λ reply. HandsOutReply self.old reply self.new) }
        ensures unfinished { OnOkNone result (WaitsForReply self.old self.new) }
        ensures fault { IfErr result (λ fault. IfNone self.old.fault (FailsReplyBy fault self.old self.new)) }
        ensures again { IfErr result (λ fault. FailsAgainBy fault self.old self.new) }
    {
        if self.is_broken {
            return Err(Fault::Protocol);
        }
        match take_reply(&mut self.input, &mut self.begun, &mut self.array) {
            Ok(found) => Ok(found),
            Err(fault) => {
                self.is_broken = is_lasting(fault);
                Err(fault)
            }
        }
    }
}

// Whether a fault is one of the bytes. Want of memory passes.
fn is_lasting(fault: Fault) -> bool
    ensures { result ≡ is_lasting fault }
{
    match fault {
        Fault::Protocol | Fault::TooLong => true,
        Fault::Memory => false,
    }
}

// Takes the reply in front, once it is whole.
fn take_reply(
    input: &mut BytesMut,
    begun: &mut Begun,
    array: &mut ArrayPart,
) -> Result<Option<Reply>, Fault>
    requires { IsReading array.old begun.old input.old.items }
    ensures takes { TakesReply result (reply_ahead array.old begun.old input.old.items) (part_front array.new begun.new input.new.items) }
    ensures reading { IsReading array.new begun.new input.new.items }
    ensures sound { IfOkSome result (λ reply. IsTrue (is_reply reply)) }
    ensures unfinished { OnOkNone result (SamePart array.old begun.old input.old array.new begun.new input.new) }
    ensures err { OnErr result (SamePart array.old begun.old input.old array.new begun.new input.new) }
{
    if !array.elements.is_empty() || begun.begins_array(input) {
        let Some(array) = array.take(input, begun)? else {
            return Ok(None);
        };
        return Ok(Some(Reply::Array(array)));
    }
    let Some(element) = take_leaf(input, begun)? else {
        return Ok(None);
    };
    Ok(Some(into_reply(element)))
}

// The reply that an element is, where it is no array's header.
fn into_reply(element: Element) -> Reply
    requires { ¬ HasHeader (element ∷ []) }
    ensures reply { elements_of result ≡ element ∷ [] }
    ensures sound { IsTrue (is_reply result) }
{
    match element {
        Element::Simple(text) => Reply::Simple(text),
        Element::Error(text) => Reply::Error(text),
        Element::Integer(number) => Reply::Integer(number),
        Element::Bulk(bytes) => Reply::Bulk(bytes),
        Element::Null => Reply::Null,
        Element::Array(_) => unreachable!(),
    }
}
