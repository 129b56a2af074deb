//! Replies that are no arrays, from the front of bytes that come in any pieces.
ghost use Rattle.std.specs.Bool.{OnTrue, OnFalse};
ghost use Rattle.std.specs.Prelude.{◌≡◌, ◌≢◌, ◌+◌, ◌-◌, ◌<◌, ◌≤◌, IsTrue, length, take, drop, slice_get, Some, None, OnErr};
ghost use Rattle.resp_values.specs.Line.{is_one_line};
ghost use Rattle.resp2.specs.Progress.{SameFront, Takes};
ghost use Rattle.resp2.specs.ReplyProgress.{GivesInteger, TakesElement, IsBegun, StopsText, begins_array, element_front};
ghost use Rattle.resp2.specs.ReplyReading.{leaf_at, text_at, bytes_of, number_element_at, bulk_or_null_at, null_at, integer_at};
ghost use Rattle.resp2.specs.Answers.{IfOkSome, OnOkNone};

use crate::bulk::{is_whole, make_room, take_front};
use crate::reply_reader::MOST_COUNT;
use byte_string::ByteString;
use bytes::{Bytes, BytesMut};
use resp_header::{Bounds, Fault, read_header};
use resp_values::{Element, Line, is_text_byte};

/// For so many bytes of a bulk string room is made as soon as its length is known, and for more as
/// they come: so a length alone takes little memory.
const MOST_ROOM: usize = 1_048_576;

/// What was read of the element in front of the input.
#[derive(Clone, Copy)]
pub(crate) struct Begun {
    /// The length of a bulk string, whose header is no longer in the input.
    pub len: Option<usize>,
    /// So many bytes in front are a mark and a text that doesn't end there.
    pub scanned: usize,
}

impl Begun {
    /// Nothing was read yet.
    pub fn nothing() -> Begun
        ensures len { result.len ≡ None }
        ensures scanned { result.scanned ≡ 0 }
    {
        Begun {
            len: None,
            scanned: 0,
        }
    }

    /// Whether an array begins in front of the input, of which this was read.
    pub fn begins_array(&self, input: &BytesMut) -> bool
        ensures { result ≡ begins_array (element_front self.now input.now.items) }
    {
        self.len.is_none() && !input.is_empty() && input.as_slice()[0] == b'*'
    }
}

/// An integer that is whole.
#[derive(Clone, Copy)]
struct Integer {
    /// The number.
    number: i64,
    /// How many bytes it has with its mark and the end of its line.
    len: usize,
}

/// Takes the element in front, which is no array, once it is whole.
pub(crate) fn take_leaf(input: &mut BytesMut, begun: &mut Begun) -> Result<Option<Element>, Fault>
    requires { IsBegun begun.old input.old.items }
    ensures takes { TakesElement result (leaf_at (element_front begun.old input.old.items)) input.new.items }
    ensures begun { IsBegun begun.new input.new.items }
    ensures next { IfOkSome result (λ element. begun.new.len ≡ None) }
    ensures unfinished { OnOkNone result (SameFront begun.old.len input.old begun.new.len input.new) }
    ensures err { OnErr result (SameFront begun.old.len input.old begun.new.len input.new) }
    ensures shrinks { length input.new.items ≤ length input.old.items }
{
    match begun.len {
        Some(len) => take_bytes(input, begun, len),
        None => take_marked(input, begun),
    }
}

// Takes the element in front, of which no header was read.
fn take_marked(input: &mut BytesMut, begun: &mut Begun) -> Result<Option<Element>, Fault>
    requires none { begun.old.len ≡ None }
    requires begun { IsBegun begun.old input.old.items }
    ensures takes { TakesElement result (leaf_at input.old.items) input.new.items }
    ensures begun { IsBegun begun.new input.new.items }
    ensures next { IfOkSome result (λ element. begun.new.len ≡ None) }
    ensures unfinished { OnOkNone result (element_front begun.new input.new.items ≡ input.old.items) }
    ensures err { OnErr result (element_front begun.new input.new.items ≡ input.old.items) }
    ensures shrinks { length input.new.items ≤ length input.old.items }
{
    if input.is_empty() {
        return Ok(None);
    }
    match input.as_slice()[0] {
        b'+' => Ok(take_line(input, begun)?.map(|line| Element::Simple(line))),
        b'-' => Ok(take_line(input, begun)?.map(|line| Element::Error(line))),
        b':' => take_integer(input, begun),
        b'$' => take_bulk(input, begun),
        _ => Err(Fault::Protocol),
    }
}

// Takes the mark in front with the text behind it, once its line ends.
fn take_line(input: &mut BytesMut, begun: &mut Begun) -> Result<Option<Line>, Fault>
    requires mark { 0 < length input.old.items }
    requires none { begun.old.len ≡ None }
    requires begun { IsBegun begun.old input.old.items }
    ensures takes { Takes result (text_at (drop 1 input.old.items)) input.new.items }
    ensures begun { IsBegun begun.new input.new.items }
    ensures next { begun.new.len ≡ None }
    ensures unfinished { OnOkNone result (input.new.items ≡ input.old.items) }
    ensures err { OnErr result (input.new.items ≡ input.old.items) }
    ensures shrinks { length input.new.items ≤ length input.old.items }
{
    let end = end_of_text(input.as_slice(), begun.scanned.max(1));
    begun.scanned = end;
    if !is_whole(input.as_slice(), end)? {
        return Ok(None);
    }
    let text = Bytes::copy_from_slice(*input.allocator(), &input.as_slice()[1..end])?;
    input.advance(end + 2);
    *begun = Begun::nothing();
    Ok(Some(Line::of(text)))
}

// How many bytes in front are a mark and a text, of which `from` are known to be.
fn end_of_text(bytes: &[u8], from: usize) -> usize
    requires mark { 0 < from }
    requires within { from ≤ length bytes.now }
    requires text { IsTrue (is_one_line (drop 1 (take from bytes.now))) }
    ensures mark { 0 < result }
    ensures within { result ≤ length bytes.now }
    ensures text { IsTrue (is_one_line (drop 1 (take result bytes.now))) }
    ensures stops { StopsText (drop result bytes.now) }
{
    let mut at = from;
    'text: while at < bytes.len() && is_text_byte(bytes[at]) {
        at += 1;
    }
    at
}

// Takes the integer in front, once it is whole.
fn take_integer(input: &mut BytesMut, begun: &mut Begun) -> Result<Option<Element>, Fault>
    requires mark { slice_get input.old.items 0 ≡ Some 58 }
    requires none { begun.old.len ≡ None }
    requires begun { IsBegun begun.old input.old.items }
    ensures takes { TakesElement result (number_element_at (drop 1 input.old.items)) input.new.items }
    ensures begun { IsBegun begun.new input.new.items }
    ensures next { begun.new.len ≡ None }
    ensures unfinished { OnOkNone result (input.new.items ≡ input.old.items) }
    ensures err { OnErr result (input.new.items ≡ input.old.items) }
    ensures shrinks { length input.new.items ≤ length input.old.items }
{
    let Some(integer) = read_integer(input.as_slice())? else {
        return Ok(None);
    };
    input.advance(integer.len);
    *begun = Begun::nothing();
    Ok(Some(Element::Integer(integer.number)))
}

// The integer in front, or None where more bytes have to come.
fn read_integer(bytes: &[u8]) -> Result<Option<Integer>, Fault>
    requires { slice_get bytes.now 0 ≡ Some 58 }
    ensures { GivesInteger bytes.now result (integer_at (drop 1 bytes.now)) }
{
    if has_minus(bytes) {
        return read_negative(bytes);
    }
    let bounds = Bounds {
        least: 0,
        most: 9_223_372_036_854_775_807,
        above: Fault::Protocol,
    };
    let Some(header) = read_header(bytes, b':', bounds)? else {
        return Ok(None);
    };
    Ok(Some(Integer {
        number: header.number as i64,
        len: header.len,
    }))
}

// Whether a minus stands behind the mark in front.
fn has_minus(bytes: &[u8]) -> bool
    ensures minus { OnTrue result (slice_get bytes.now 1 ≡ Some 45) }
    ensures other { OnFalse result (slice_get bytes.now 1 ≢ Some 45) }
{
    bytes.len() > 1 && bytes[1] == b'-'
}

// The same with a minus behind the mark.
fn read_negative(bytes: &[u8]) -> Result<Option<Integer>, Fault>
    requires mark { 1 < length bytes.now }
    requires minus { slice_get bytes.now 1 ≡ Some 45 }
    ensures { GivesInteger bytes.now result (integer_at (drop 1 bytes.now)) }
{
    let bounds = Bounds {
        least: 1,
        most: 9_223_372_036_854_775_808,
        above: Fault::Protocol,
    };
    let Some(header) = read_header(&bytes[1..], b'-', bounds)? else {
        return Ok(None);
    };
    Ok(Some(Integer {
        number: -((header.number - 1) as i64) - 1,
        len: header.len + 1,
    }))
}

// Takes the bulk string in front, which may be the null one, once it is whole. Its header is taken as soon as it is.
fn take_bulk(input: &mut BytesMut, begun: &mut Begun) -> Result<Option<Element>, Fault>
    requires mark { slice_get input.old.items 0 ≡ Some 36 }
    requires none { begun.old.len ≡ None }
    requires begun { IsBegun begun.old input.old.items }
    ensures takes { TakesElement result (bulk_or_null_at (drop 1 input.old.items)) input.new.items }
    ensures begun { IsBegun begun.new input.new.items }
    ensures next { IfOkSome result (λ element. begun.new.len ≡ None) }
    ensures unfinished { OnOkNone result (element_front begun.new input.new.items ≡ input.old.items) }
    ensures err { OnErr result (element_front begun.new input.new.items ≡ input.old.items) }
    ensures shrinks { length input.new.items ≤ length input.old.items }
{
    if input.len() > 1 && input.as_slice()[1] == b'-' {
        return take_null(input, begun);
    }
    let bounds = Bounds {
        least: 0,
        most: MOST_COUNT,
        above: Fault::Protocol,
    };
    let Some(header) = read_header(input.as_slice(), b'$', bounds)? else {
        return Ok(None);
    };
    input.advance(header.len);
    *begun = Begun {
        len: Some(header.number),
        scanned: 0,
    };
    take_bytes(input, begun, header.number)
}

// Takes the null bulk string, once it is whole.
fn take_null(input: &mut BytesMut, begun: &mut Begun) -> Result<Option<Element>, Fault>
    requires minus { slice_get input.old.items 1 ≡ Some 45 }
    requires none { begun.old.len ≡ None }
    requires begun { IsBegun begun.old input.old.items }
    ensures takes { TakesElement result (null_at (drop 2 input.old.items)) input.new.items }
    ensures begun { IsBegun begun.new input.new.items }
    ensures next { begun.new.len ≡ None }
    ensures unfinished { OnOkNone result (input.new.items ≡ input.old.items) }
    ensures err { OnErr result (input.new.items ≡ input.old.items) }
    ensures shrinks { length input.new.items ≤ length input.old.items }
{
    if input.len() > 2 && input.as_slice()[2] != b'1' {
        return Err(Fault::Protocol);
    }
    if input.len() <= 3 {
        return Ok(None);
    }
    if !is_whole(input.as_slice(), 3)? {
        return Ok(None);
    }
    input.advance(5);
    *begun = Begun::nothing();
    Ok(Some(Element::Null))
}

// Takes the bytes of a bulk string of which the header was taken, and the end of its line, once all came.
fn take_bytes(input: &mut BytesMut, begun: &mut Begun, len: usize) -> Result<Option<Element>, Fault>
    requires len { begun.old.len ≡ Some len }
    requires begun { IsBegun begun.old input.old.items }
    ensures takes { TakesElement result (bytes_of len input.old.items) input.new.items }
    ensures begun { IsBegun begun.new input.new.items }
    ensures next { IfOkSome result (λ element. begun.new.len ≡ None) }
    ensures unfinished { OnOkNone result (SameFront begun.old.len input.old begun.new.len input.new) }
    ensures err { OnErr result (SameFront begun.old.len input.old begun.new.len input.new) }
    ensures shrinks { length input.new.items ≤ length input.old.items }
{
    if !is_whole(input.as_slice(), len)? {
        make_room(input, len.min(MOST_ROOM));
        return Ok(None);
    }
    let bytes = take_front(input, len)?;
    input.advance(2);
    *begun = Begun::nothing();
    Ok(Some(Element::Bulk(bytes)))
}
