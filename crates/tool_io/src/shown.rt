//! Bytes as sentences show them.

use byte_string::ByteString;
use std::fmt;

// How many bytes of a text are shown at most.
const MOST_BYTES: usize = 100;

// How many words of a request are shown at most.
const MOST_WORDS: usize = 8;

/// Bytes in printing characters, of which a sentence shows the first hundred.
#[derive(Clone, Copy)]
pub struct Shown<'a>(pub &'a [u8]);

impl fmt::Display for Shown<'_> {
    fn fmt<W: fmt::Write>(&self, f: &mut fmt::Formatter<W>) -> fmt::Result {
        for byte in self.0.iter().take(MOST_BYTES) {
            show(*byte, f)?;
        }
        if self.0.len() > MOST_BYTES {
            write!(f, "..")?;
        }
        Ok(())
    }
}

fn show<W: fmt::Write>(byte: u8, f: &mut fmt::Formatter<W>) -> fmt::Result {
    match byte {
        b'\r' => write!(f, "\\r"),
        b'\n' => write!(f, "\\n"),
        b'\\' | b'"' => write!(f, "\\{}", char::from(byte)),
        b' '..=b'~' => write!(f, "{}", char::from(byte)),
        _ => write!(f, "\\x{byte:02x}"),
    }
}

/// The words of a request, of which a sentence shows the first eight. An empty one is shown as `""`.
#[derive(Clone, Copy)]
pub(crate) struct ShownWords<'a>(pub(crate) &'a [ByteString]);

impl fmt::Display for ShownWords<'_> {
    fn fmt<W: fmt::Write>(&self, f: &mut fmt::Formatter<W>) -> fmt::Result {
        for (number, word) in self.0.iter().take(MOST_WORDS).enumerate() {
            if number > 0 {
                write!(f, " ")?;
            }
            show_word(word.as_slice(), f)?;
        }
        if self.0.len() > MOST_WORDS {
            write!(f, " ..")?;
        }
        Ok(())
    }
}

fn show_word<W: fmt::Write>(word: &[u8], f: &mut fmt::Formatter<W>) -> fmt::Result {
    if word.is_empty() {
        return write!(f, "\"\"");
    }
    write!(f, "{}", Shown(word))
}
