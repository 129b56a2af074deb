//! The text of a simple string or of an error: bytes without CR and LF.
ghost use Rattle.std.specs.Prelude.{◌≡◌, IsTrue, IfSome, IfNone, IsSome, ◌↔◌, nat_eq};
ghost use Rattle.std.specs.Cmp.{partial_equiv_from_equiv};
ghost use Rattle.std.specs.Cmp.Lexicographic.{pointwise, nat_list_eq_equiv};
ghost use Rattle.resp_values.specs.Line.{is_one_line, is_text_byte};

use bytes::Bytes;
use std::alloc::AllocError;
use std::marker::Model;

/// A text on one line, as simple strings and errors carry it.
#[derive(Debug)]
pub struct Line {
    text: Bytes,
}

impl Model for Line {
    ghost use Rattle.std.specs.Prelude.{List, ℕ, IsTrue};
    ghost use Rattle.resp_values.specs.Line.{is_one_line};

    ghost Value = { List ℕ };

    ghost view = { λ line. line.text };

    ghost invariant = { λ line. IsTrue (is_one_line line.text) };
}

impl Drop for Line {
    fn drop(self) {
        let Line { text: _ } = self;
    }
}

impl Line {
    /// A line of the program's own text.
    pub fn from_static(text: &'static [u8]) -> Line
        requires { IsTrue (is_one_line text.now) }
        ensures { result ≡ text.now }
    {
        Line {
            text: Bytes::from_static(text),
        }
    }

    /// The line with this text, or None where a CR or an LF is in it.
    pub fn new(text: Bytes) -> Option<Line>
        ensures line { IfSome result (λ line. line ≡ text) }
        ensures whole { IsSome result ↔ IsTrue (is_one_line text) }
    {
        if is_one_line(text.as_slice()) {
            Some(Line { text })
        } else {
            None
        }
    }

    /// The line with this text, in which no line ends.
    pub fn of(text: Bytes) -> Line
        requires { IsTrue (is_one_line text) }
        ensures { result ≡ text }
    {
        Line { text }
    }

    /// The bytes of the line, without its end.
    pub fn as_slice(&self) -> &[u8]
        ensures text { result.now ≡ self.now }
        ensures one_line { IsTrue (is_one_line self.now) }
    {
        self.text.as_slice()
    }
}

impl PartialEq for Line {
    ghost eq = { pointwise nat_eq };

    ghost laws = { partial_equiv_from_equiv nat_list_eq_equiv };

    fn eq(&self, other: &Line) -> bool {
        self.text == other.text
    }
}

impl Eq for Line {
    ghost laws = { nat_list_eq_equiv };
}

impl Clone for Line {
    ghost is_clone = { λ line copy. copy ≡ line };

    fn clone(&self) -> Result<Line, AllocError> {
        let text = self.text.clone()?;
        Ok(Line { text })
    }
}

fn is_one_line(text: &[u8]) -> bool
    ensures { result ≡ is_one_line text.now }
{
    text.iter().all(|byte| is_text_byte(*byte))
}

/// Whether the byte ends no line.
pub fn is_text_byte(byte: u8) -> bool
    ensures { result ≡ is_text_byte byte }
{
    !matches!(byte, b'\r' | b'\n')
}
