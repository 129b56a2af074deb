//! A reply as redis-cli prints it on a terminal.
ghost use Rattle.std.specs.Prelude.{◌≡◌, ◌++◌, codes, OnOk, IfSome};
ghost use Rattle.cli_text.specs.Quoting.{quoted};
ghost use Rattle.cli_text.specs.ReplyText.{error_line, integer_line, text_of};

use crate::quoting::print_quoted;
use itoa::Buffer;
use resp_values::{Element, Reply};
use std::alloc::AllocError;

/// Puts the reply behind the text, with the ends of its lines.
///
/// An array has a line for each reply that is no array, behind the number of each of its replies. The numbers of an array are as wide as
/// its last one, and those of an array within it stand behind that.
pub fn print_text(reply: &Reply, out: &mut Vec<u8>) -> Result<(), AllocError>
    ensures { OnOk result (IfSome (text_of reply.now) (λ text. out.new.items ≡ out.old.items ++ text)) }
{
    match reply {
        Reply::Simple(text) => print_simple(text.as_slice(), out),
        Reply::Error(text) => print_error(text.as_slice(), out),
        Reply::Integer(number) => print_integer(*number, out),
        Reply::Bulk(bytes) => print_bulk(bytes.as_slice(), out),
        Reply::Null => print_null(out),
        Reply::Array(array) => print_elements(array.as_slice(), out),
    }
}

fn print_simple(text: &[u8], out: &mut Vec<u8>) -> Result<(), AllocError>
    ensures { OnOk result (out.new.items ≡ out.old.items ++ (text.now ++ codes "\n")) }
{
    out.extend_from_slice(text)?;
    out.extend_from_slice(b"\n")
}

fn print_error(text: &[u8], out: &mut Vec<u8>) -> Result<(), AllocError>
    ensures { OnOk result (out.new.items ≡ out.old.items ++ error_line text.now) }
{
    out.extend_from_slice(b"(error) ")?;
    print_simple(text, out)
}

fn print_integer(number: i64, out: &mut Vec<u8>) -> Result<(), AllocError>
    ensures { OnOk result (out.new.items ≡ out.old.items ++ integer_line number) }
{
    out.extend_from_slice(b"(integer) ")?;
    print_simple(Buffer::new().format(number).as_bytes(), out)
}

fn print_bulk(bytes: &[u8], out: &mut Vec<u8>) -> Result<(), AllocError>
    ensures { OnOk result (out.new.items ≡ out.old.items ++ (quoted bytes.now ++ codes "\n")) }
{
    print_quoted(bytes, out)?;
    out.extend_from_slice(b"\n")
}

fn print_null(out: &mut Vec<u8>) -> Result<(), AllocError>
    ensures { OnOk result (out.new.items ≡ out.old.items ++ codes "(nil)\n") }
{
    out.extend_from_slice(b"(nil)\n")
}

// An array of which replies are still to come.
#[derive(Clone, Copy)]
struct Level {
    // The number of the one that comes next, counted from 1.
    next: usize,
    last: usize,
    // How many digits the number of the last one has.
    width: usize,
}

impl Level {
    // An array of so many replies, of which none came yet.
    fn new(count: usize) -> Level {
        Level {
            next: 1,
            last: count,
            width: Buffer::new().format(count).len(),
        }
    }
}

// Prints an array, whose elements these are.
fn print_elements(elements: &[Element], out: &mut Vec<u8>) -> Result<(), AllocError> {
    let mut levels = Vec::new(*out.allocator());
    for element in elements {
        print_number(levels.as_slice(), out)?;
        match element {
            Element::Array(count) if *count > 0 => {
                levels.push(Level::new(*count)).map_err(AllocError::from)?;
            }
            element => {
                print_element(element, out)?;
                pass(&mut levels);
            }
        }
    }
    Ok(())
}

// Prints an element that has no replies behind it.
fn print_element(element: &Element, out: &mut Vec<u8>) -> Result<(), AllocError> {
    match element {
        Element::Simple(text) => print_simple(text.as_slice(), out),
        Element::Error(text) => print_error(text.as_slice(), out),
        Element::Integer(number) => print_integer(*number, out),
        Element::Bulk(bytes) => print_bulk(bytes.as_slice(), out),
        Element::Null => print_null(out),
        Element::Array(_) => out.extend_from_slice(b"(empty array)\n"),
    }
}

// One more reply was printed, and with it each array whose last one it is.
fn pass(levels: &mut Vec<Level>) {
    'levels: while let Some(level) = levels.last_mut() {
        if level.next < level.last {
            level.next = level.next.saturating_add(1);
            return;
        }
        levels.pop();
    }
}

// Prints the number of the reply that comes next, if it stands in an array.
fn print_number(levels: &[Level], out: &mut Vec<u8>) -> Result<(), AllocError> {
    let Some((level, outer)) = levels.split_last() else {
        return Ok(());
    };
    // The first reply of an array stands behind the number of that array.
    if level.next > 1 {
        for level in outer {
            print_blanks(level.width, out)?;
            out.extend_from_slice(b"  ")?;
        }
    }
    let mut digits = Buffer::new();
    let number = digits.format(level.next);
    print_blanks(level.width.saturating_sub(number.len()), out)?;
    out.extend_from_slice(number.as_bytes())?;
    out.extend_from_slice(b") ")
}

fn print_blanks(count: usize, out: &mut Vec<u8>) -> Result<(), AllocError> {
    for _ in 0..count {
        out.extend_from_slice(b" ")?;
    }
    Ok(())
}
