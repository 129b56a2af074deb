//! The header of a request or of a word: a mark, a number, and the end of the line.
ghost use Rattle.std.specs.Prelude.{◌≡◌, ◌<◌, ◌≤◌, ◌-◌, ◌^◌, length, drop};
ghost use Rattle.resp_header.specs.Reading.{header_at, number_at, digits_at, after_cr};
ghost use Rattle.resp_header.specs.Header.{Gives};

use crate::fault::Fault;

/// A header that is whole.
#[derive(Clone, Copy)]
pub struct Header {
    /// How many words the request has, or how many bytes the word.
    pub number: usize,
    /// How many bytes the header itself has, from its mark to the end of its line.
    pub len: usize,
}

/// Which numbers a header may have. A smaller one breaks the protocol.
#[derive(Clone, Copy)]
pub struct Bounds {
    /// The smallest number, 0 or 1: the first digit alone is compared with it.
    pub least: usize,
    /// The greatest number.
    pub most: usize,
    /// What is wrong with a greater number.
    pub above: Fault,
}

/// The header in front of the bytes, or None where more bytes have to come.
///
/// The first byte that no header has there is a fault at once, whatever may follow it: so a peer
/// that doesn't speak the protocol is never waited for.
pub fn read_header(bytes: &[u8], mark: u8, bounds: Bounds) -> Result<Option<Header>, Fault>
    requires { bounds.most < 2 ^ 64 - 1 }
    ensures { Gives bytes.now result
        (header_at mark bounds.above bounds.least bounds.most bytes.now) }
{
    if bytes.is_empty() {
        return Ok(None);
    }
    if bytes[0] != mark {
        return Err(Fault::Protocol);
    }
    read_number(bytes, bounds)
}

/// The same behind the mark: the first digit.
fn read_number(bytes: &[u8], bounds: Bounds) -> Result<Option<Header>, Fault>
    requires small { bounds.most < 2 ^ 64 - 1 }
    requires mark { 0 < length bytes.now }
    ensures { Gives bytes.now result
        (number_at bounds.above bounds.least bounds.most (drop 1 bytes.now)) }
{
    if bytes.len() == 1 {
        return Ok(None);
    }
    let first = bytes[1];
    if first < b'0' || first > b'9' {
        return Err(Fault::Protocol);
    }
    let number = (first - b'0') as usize;
    if number < bounds.least {
        return Err(Fault::Protocol);
    }
    if number > bounds.most {
        return Err(bounds.above);
    }
    read_digits(bytes, number, bounds)
}

/// The same behind the first digit.
fn read_digits(bytes: &[u8], first: usize, bounds: Bounds) -> Result<Option<Header>, Fault>
    requires small { bounds.most < 2 ^ 64 - 1 }
    requires first { first ≤ bounds.most }
    requires mark { 2 ≤ length bytes.now }
    ensures { Gives bytes.now result
        (digits_at bounds.above bounds.most first (drop 2 bytes.now)) }
{
    let most = bounds.most;
    let above = bounds.above;
    let mut number = first;
    let mut at = 2;
    'digits: while at < bytes.len() {
        let byte = bytes[at];
        if byte == b'\r' {
            return read_line_feed(bytes, at + 1, number);
        }
        // A number has one encoding: behind a leading 0 no digit may follow.
        if number == 0 || byte < b'0' || byte > b'9' {
            return Err(Fault::Protocol);
        }
        let next = number
            .saturating_mul(10)
            .saturating_add((byte - b'0') as usize);
        if next > most {
            return Err(above);
        }
        number = next;
        at += 1;
    }
    Ok(None)
}

/// The same behind CR.
fn read_line_feed(bytes: &[u8], at: usize, number: usize) -> Result<Option<Header>, Fault>
    requires { at ≤ length bytes.now }
    ensures { Gives bytes.now result (after_cr number (drop at bytes.now)) }
{
    if at == bytes.len() {
        return Ok(None);
    }
    if bytes[at] != b'\n' {
        return Err(Fault::Protocol);
    }
    Ok(Some(Header {
        number,
        len: at + 1,
    }))
}
