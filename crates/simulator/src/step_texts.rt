//! The steps of a script, as the help lists them, and what is wrong with a line that is none.

use crate::form::{FORMS, StepForm};
use inputs::AFTER_SIMULATE;
use redirection::first_word;
use std::alloc::{AllocError, Global};
use std::fmt;
use std::fmt::Write;
use tool_io::Shown;

/// What the help of `simulate` says at the end: the steps of a script, a line each, and how the program ends.
pub fn script_help(alloc: Global) -> Result<String, AllocError> {
    let mut text = String::new(alloc);
    text.push_str("Steps of a script, one a line:\n")?;
    for form in &FORMS {
        let row = form.row();
        write!(
            text,
            "  {:<7} {:<9} {}\n",
            row.word, row.arguments, row.meaning
        )?;
    }
    text.push_str(
        "Nodes are numbered from 0, clients and messages from 1. One blank separates two words.\n\n",
    )?;
    text.push_str(AFTER_SIMULATE)?;
    Ok(text)
}

/// Why a line is no step.
#[derive(Clone, Copy)]
pub(crate) enum NoStep<'a> {
    /// Nothing stands there.
    Empty,
    /// It ends with a carriage return.
    Return,
    /// It is a comment.
    Comment,
    /// It has bytes that no step has.
    Bytes,
    /// No step begins with its first word.
    Word(&'a [u8]),
    /// What stands behind the word isn't what the step takes.
    Arguments(StepForm),
}

impl NoStep<'_> {
    /// Why this line is none, if it is none.
    pub(crate) fn of(line: &[u8]) -> NoStep<'_> {
        match line {
            [] => NoStep::Empty,
            [.., b'\r'] => NoStep::Return,
            [b'#', ..] => NoStep::Comment,
            _ if !has_plain_bytes(line) => NoStep::Bytes,
            _ => NoStep::by_word(first_word(line)),
        }
    }

    // Why a line that begins with this word is none.
    fn by_word(word: &[u8]) -> NoStep<'_> {
        match StepForm::of(word) {
            Some(form) => NoStep::Arguments(form),
            None => NoStep::Word(word),
        }
    }
}

fn has_plain_bytes(line: &[u8]) -> bool {
    line.iter().all(|byte| matches!(*byte, b' '..=b'~'))
}

impl fmt::Display for NoStep<'_> {
    fn fmt<W: fmt::Write>(&self, f: &mut fmt::Formatter<W>) -> fmt::Result {
        match self {
            NoStep::Empty => write!(f, "it is empty"),
            NoStep::Return => write!(f, "it ends with a carriage return"),
            NoStep::Comment => write!(f, "a script has no comments"),
            NoStep::Bytes => write!(f, "it has a byte that isn't from 32 to 126"),
            NoStep::Word(word) => write!(f, "no step begins with \"{}\"", Shown(*word)),
            NoStep::Arguments(form) => {
                let row = form.row();
                write!(f, "the step is written \"{} {}\"", row.word, row.arguments)
            }
        }
    }
}
