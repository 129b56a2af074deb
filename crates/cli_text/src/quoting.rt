//! What stands in quotes, as redis-cli reads and prints it.
ghost use Rattle.std.specs.Prelude.{◌≡◌, ◌<◌, ◌++◌, length, IfSome, OnOk};
ghost use Rattle.std.specs.List.{flat_map};
ghost use Rattle.cli_text.specs.Quoting.{quoted, shown};

use crate::hex::print_hex;
use std::alloc::AllocError;

/// How a text is quoted.
#[derive(Clone, Copy)]
pub(crate) enum Quote {
    /// By `"`. A backslash escapes there.
    Double,
    /// By `'`, which alone is escaped there.
    Single,
}

/// What stands at the front of a quoted text.
#[derive(Clone, Copy)]
pub(crate) enum Piece {
    /// A byte of the word.
    Byte(u8),
    /// The closing quote.
    End,
}

/// What stands at the front of the quoted text, and the text behind it. None where no text is left.
pub(crate) fn piece_in(quote: Quote, text: &[u8]) -> Option<(Piece, &[u8])>
    ensures shorter { IfSome result (λ split. length split.1.now < length text.now) }
{
    match quote {
        Quote::Double => piece_in_double(text),
        Quote::Single => piece_in_single(text),
    }
}

fn piece_in_double(text: &[u8]) -> Option<(Piece, &[u8])>
    ensures shorter { IfSome result (λ split. length split.1.now < length text.now) }
{
    if let [b'\\', b'x', high, low, behind @ ..] = text
        && let Some(byte) = byte_in(*high, *low)
    {
        return Some((Piece::Byte(byte), behind));
    }
    match text {
        [] => None,
        [b'"', behind @ ..] => Some((Piece::End, behind)),
        [b'\\', byte, behind @ ..] => Some((Piece::Byte(meant_by(*byte)), behind)),
        [byte, behind @ ..] => Some((Piece::Byte(*byte), behind)),
    }
}

fn piece_in_single(text: &[u8]) -> Option<(Piece, &[u8])>
    ensures shorter { IfSome result (λ split. length split.1.now < length text.now) }
{
    match text {
        [] => None,
        [b'\'', behind @ ..] => Some((Piece::End, behind)),
        [b'\\', b'\'', behind @ ..] => Some((Piece::Byte(b'\''), behind)),
        [byte, behind @ ..] => Some((Piece::Byte(*byte), behind)),
    }
}

// The byte that this one stands for behind a backslash.
fn meant_by(byte: u8) -> u8 {
    match byte {
        b'n' => b'\n',
        b'r' => b'\r',
        b't' => b'\t',
        b'b' => 8,
        b'a' => 7,
        byte => byte,
    }
}

// The byte that two hexadecimal digits spell.
fn byte_in(high: u8, low: u8) -> Option<u8> {
    Some(digit_in(high)? * 16 + digit_in(low)?)
}

fn digit_in(byte: u8) -> Option<u8>
    ensures digit { IfSome result (λ digit. digit < 16) }
{
    match byte {
        b'0'..=b'9' => Some(byte - b'0'),
        b'a'..=b'f' => Some(byte - b'a' + 10),
        b'A'..=b'F' => Some(byte - b'A' + 10),
        _ => None,
    }
}

/// Puts the bytes behind the text, in double quotes.
pub(crate) fn print_quoted(bytes: &[u8], out: &mut Vec<u8>) -> Result<(), AllocError>
    ensures { OnOk result (out.new.items ≡ out.old.items ++ quoted bytes.now) }
{
    out.extend_from_slice(b"\"")?;
    print_bytes(bytes, out)?;
    out.extend_from_slice(b"\"")
}

fn print_bytes(bytes: &[u8], out: &mut Vec<u8>) -> Result<(), AllocError>
    ensures { OnOk result (out.new.items ≡ out.old.items ++ flat_map shown bytes.now) }
{
    for byte in bytes {
        print_byte(*byte, out)?;
    }
    Ok(())
}

fn print_byte(byte: u8, out: &mut Vec<u8>) -> Result<(), AllocError>
    ensures { OnOk result (out.new.items ≡ out.old.items ++ shown byte) }
{
    match byte {
        b'"' => out.extend_from_slice(b"\\\""),
        b'\\' => out.extend_from_slice(b"\\\\"),
        b'\n' => out.extend_from_slice(b"\\n"),
        b'\r' => out.extend_from_slice(b"\\r"),
        b'\t' => out.extend_from_slice(b"\\t"),
        7 => out.extend_from_slice(b"\\a"),
        8 => out.extend_from_slice(b"\\b"),
        b' '..=b'~' => out.extend_from_slice(&[byte]),
        _ => print_hex(byte, out),
    }
}
