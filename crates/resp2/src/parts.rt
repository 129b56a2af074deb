//! Replies and elements as the parts that their spellings consist of.
ghost use Rattle.std.specs.Prelude.{◌≡◌};
ghost use Rattle.resp_values.specs.Request.{bulk_spelling};
ghost use Rattle.resp_values.specs.Reply.{reply_spelling, element_spelling};
ghost use Rattle.resp2.specs.Parts.{parts_spelling, spelled_by};

use byte_string::ByteString;
use itoa::Buffer;
use resp_values::{Element, Reply};

/// What is written for a reply that is no array, or for an element.
#[derive(Drop)]
pub(crate) enum Parts<'a> {
    /// A mark and a text.
    Line(u8, &'a [u8]),
    /// The digits of a length, and so many bytes.
    Bulk(&'a [u8], &'a [u8]),
}

/// What a reply is written from.
#[derive(Drop)]
pub(crate) enum Pieces<'a> {
    /// The parts of a reply that is no array.
    One(Parts<'a>),
    /// The elements of one that is.
    Many(&'a [Element]),
}

// `digits` holds the part that is a number.
pub(crate) fn pieces_of<'a>(reply: &'a Reply, digits: &'a mut Buffer) -> Pieces<'a>
    ensures { spelled_by result ≡ reply_spelling reply.now }
{
    match reply {
        Reply::Simple(text) => Pieces::One(Parts::Line(b'+', text.as_slice())),
        Reply::Error(text) => Pieces::One(Parts::Line(b'-', text.as_slice())),
        Reply::Integer(number) => {
            Pieces::One(Parts::Line(b':', digits.format(*number).as_bytes()))
        }
        Reply::Bulk(bytes) => Pieces::One(bulk(bytes, digits)),
        Reply::Null => Pieces::One(Parts::Line(b'$', b"-1")),
        Reply::Array(array) => Pieces::Many(array.as_slice()),
    }
}

// `digits` holds the part that is a number.
pub(crate) fn parts_of<'a>(element: &'a Element, digits: &'a mut Buffer) -> Parts<'a>
    ensures { parts_spelling result ≡ element_spelling element.now }
{
    match element {
        Element::Simple(text) => Parts::Line(b'+', text.as_slice()),
        Element::Error(text) => Parts::Line(b'-', text.as_slice()),
        Element::Integer(number) => Parts::Line(b':', digits.format(*number).as_bytes()),
        Element::Bulk(bytes) => bulk(bytes, digits),
        Element::Null => Parts::Line(b'$', b"-1"),
        Element::Array(len) => Parts::Line(b'*', digits.format(*len).as_bytes()),
    }
}

// `digits` holds the part that is a number.
pub(crate) fn bulk<'a>(bytes: &'a ByteString, digits: &'a mut Buffer) -> Parts<'a>
    ensures { parts_spelling result ≡ bulk_spelling bytes.now }
{
    Parts::Bulk(digits.format(bytes.len()).as_bytes(), bytes.as_slice())
}
