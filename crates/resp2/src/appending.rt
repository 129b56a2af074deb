//! Requests and replies as bytes behind others, in memory. The limits of a server's requests don't hold here.
ghost use Rattle.std.specs.Prelude.{◌≡◌, ◌++◌, ◌∷◌, ◌+◌, ◌<◌, OnOk, OnErr};
ghost use Rattle.std.specs.List.{flat_map};
ghost use Rattle.resp_values.specs.Reply.{element_spelling, line_spelling, reply_spelling};
ghost use Rattle.resp_values.specs.Request.{bulk_spelling, header_spelling, request_spelling};
ghost use Rattle.resp2.specs.Writing.{StayInFront};
ghost use Rattle.resp2.specs.Parts.{elements_spelling};

use byte_string::ByteString;
use itoa::Buffer;
use resp_values::{Element, Reply};
use std::alloc::AllocError;

/// The most bytes that a word takes beside its own: a mark, a number, and the ends of two lines.
const AROUND_WORD: usize = 25;

/// Appends the request of these words, or a front of it where memory is refused. It asks for memory once, if there isn't enough.
#[tactic(auto, using(crate::proofs::Appended::request_spelled, crate::proofs::Appended::none_stays, crate::proofs::Appended::stays_behind))]
pub fn append_request(words: &[ByteString], out: &mut Vec<u8>) -> Result<(), AllocError>
    ensures ok { OnOk result (out.new.items ≡ out.old.items ++ request_spelling words.now) }
    ensures err { OnErr result (StayInFront out.old.items out.new.items) }
{
    out.reserve(room_for(words))?;
    append_count(words.len(), out)?;
    append_words(words, out)
}

/// Appends the request of a name and the words behind it, in the same way.
#[tactic(auto, using(crate::proofs::Appended::command_spelled, crate::proofs::Appended::none_stays, crate::proofs::Appended::two_stay, crate::proofs::Appended::stays_behind))]
pub fn append_command(
    name: &[u8],
    words: &[ByteString],
    out: &mut Vec<u8>,
) -> Result<(), AllocError>
    ensures ok { OnOk result
        (out.new.items ≡ out.old.items ++ request_spelling (name.now ∷ words.now)) }
    ensures err { OnErr result (StayInFront out.old.items out.new.items) }
{
    out.reserve(room_for(words).saturating_add(name.len()))?;
    append_count(words.len() + 1, out)?;
    append_word(name, out)?;
    append_words(words, out)
}

/// Appends the line that a request of so many words begins with, or a front of it where memory is refused. The words are to follow, each by
/// [`append_word`].
pub fn append_count(words: usize, out: &mut Vec<u8>) -> Result<(), AllocError>
    ensures ok { OnOk result (out.new.items ≡ out.old.items ++ header_spelling 42 words) }
    ensures err { OnErr result (StayInFront out.old.items out.new.items) }
{
    append_header(b'*', words, out)
}

/// Appends a word of a request, or a front of it where memory is refused.
#[tactic(auto, using(crate::proofs::Appended::one_stays, crate::proofs::Appended::two_stay))]
pub fn append_word(word: &[u8], out: &mut Vec<u8>) -> Result<(), AllocError>
    ensures ok { OnOk result (out.new.items ≡ out.old.items ++ bulk_spelling word.now) }
    ensures err { OnErr result (StayInFront out.old.items out.new.items) }
{
    append_header(b'$', word.len(), out)?;
    out.extend_from_slice(word)?;
    out.extend_from_slice(b"\r\n")
}

/// Appends the reply, or nothing where memory is refused.
pub fn append_reply(reply: &Reply, out: &mut Vec<u8>) -> Result<(), AllocError>
    ensures ok { OnOk result (out.new.items ≡ out.old.items ++ reply_spelling reply.now) }
    ensures err { OnErr result (out.new.items ≡ out.old.items) }
{
    let before = out.len();
    let appended = append_front(reply, out);
    if appended.is_err() {
        out.truncate(before);
    }
    appended
}

// Appends the reply, or a front of it where memory is refused.
fn append_front(reply: &Reply, out: &mut Vec<u8>) -> Result<(), AllocError>
    ensures ok { OnOk result (out.new.items ≡ out.old.items ++ reply_spelling reply.now) }
    ensures err { OnErr result (StayInFront out.old.items out.new.items) }
{
    match reply {
        Reply::Simple(text) => append_line(b'+', text.as_slice(), out),
        Reply::Error(text) => append_line(b'-', text.as_slice(), out),
        Reply::Integer(number) => {
            append_line(b':', Buffer::new().format(*number).as_bytes(), out)
        }
        Reply::Bulk(bytes) => append_word(bytes.as_slice(), out),
        Reply::Null => append_line(b'$', b"-1", out),
        Reply::Array(array) => append_elements(array.as_slice(), out),
    }
}

#[tactic(auto, using(crate::proofs::Appended::stays_behind))]
fn append_elements(elements: &[Element], out: &mut Vec<u8>) -> Result<(), AllocError>
    ensures ok { OnOk result (out.new.items ≡ out.old.items ++ elements_spelling elements.now) }
    ensures err { OnErr result (StayInFront out.old.items out.new.items) }
{
    for element in elements {
        append_element(element, out)?;
    }
    Ok(())
}

fn append_element(element: &Element, out: &mut Vec<u8>) -> Result<(), AllocError>
    ensures ok { OnOk result (out.new.items ≡ out.old.items ++ element_spelling element.now) }
    ensures err { OnErr result (StayInFront out.old.items out.new.items) }
{
    match element {
        Element::Simple(text) => append_line(b'+', text.as_slice(), out),
        Element::Error(text) => append_line(b'-', text.as_slice(), out),
        Element::Integer(number) => {
            append_line(b':', Buffer::new().format(*number).as_bytes(), out)
        }
        Element::Bulk(bytes) => append_word(bytes.as_slice(), out),
        Element::Null => append_line(b'$', b"-1", out),
        Element::Array(len) => append_header(b'*', *len, out),
    }
}

#[tactic(auto, using(crate::proofs::Appended::one_stays, crate::proofs::Appended::two_stay))]
fn append_line(mark: u8, text: &[u8], out: &mut Vec<u8>) -> Result<(), AllocError>
    ensures ok { OnOk result (out.new.items ≡ out.old.items ++ line_spelling mark text.now) }
    ensures err { OnErr result (StayInFront out.old.items out.new.items) }
{
    out.push(mark)?;
    out.extend_from_slice(text)?;
    out.extend_from_slice(b"\r\n")
}

#[tactic(auto, using(crate::proofs::Appended::stays_behind))]
fn append_words(words: &[ByteString], out: &mut Vec<u8>) -> Result<(), AllocError>
    ensures ok { OnOk result (out.new.items ≡ out.old.items ++ flat_map bulk_spelling words.now) }
    ensures err { OnErr result (StayInFront out.old.items out.new.items) }
{
    for word in words {
        append_word(word.as_slice(), out)?;
    }
    Ok(())
}

// Enough for the bytes of a request of these words, and around a name before them.
fn room_for(words: &[ByteString]) -> usize {
    let mut room = 2 * AROUND_WORD;
    for word in words {
        room = room.saturating_add(word.len()).saturating_add(AROUND_WORD);
    }
    room
}

// Most numbers have one digit or two, and are put there with what stands around them at once.
#[tactic(auto, using(crate::proofs::Appended::one_digit, crate::proofs::Appended::two_digits, crate::proofs::Appended::none_stays, crate::proofs::Appended::one_stays, crate::proofs::Appended::two_stay))]
fn append_header(mark: u8, number: usize, out: &mut Vec<u8>) -> Result<(), AllocError>
    ensures ok { OnOk result (out.new.items ≡ out.old.items ++ header_spelling mark number) }
    ensures err { OnErr result (StayInFront out.old.items out.new.items) }
{
    if number < 10 {
        return out.extend_from_slice(&[mark, digit(number), b'\r', b'\n']);
    }
    if number < 100 {
        return out.extend_from_slice(&[mark, digit(number / 10), digit(number % 10), b'\r', b'\n']);
    }
    out.push(mark)?;
    out.extend_from_slice(Buffer::new().format(number).as_bytes())?;
    out.extend_from_slice(b"\r\n")
}

fn digit(value: usize) -> u8
    requires { value < 10 }
    ensures { result ≡ 48 + value }
{
    b'0' + value as u8
}
