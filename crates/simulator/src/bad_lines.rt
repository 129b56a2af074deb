//! Lines of a script's file that are no steps.
ghost use Rattle.std.specs.Prelude.{◌≤◌, length};

use crate::step_texts::NoStep;
use inputs::{InputFailure, InputFault};
use std::alloc::{AllocError, Global};
use tool_io::Shown;

/// That the line of this number, from 1 on, is no step of the script in the file, and why.
pub(crate) fn no_step(alloc: Global, path: &str, number: u64, text: &[u8]) -> InputFailure {
    let detail = report_line(alloc, path, number, line_of(text, number));
    InputFailure::new(InputFault::Script(number), detail)
}

// The line of that number, from 1 on, without its end.
fn line_of(text: &[u8], number: u64) -> &[u8] {
    let mut rest = text;
    for _ in 1..number {
        rest = behind_newline(rest);
    }
    &rest[..end_of_line(rest)]
}

fn behind_newline(text: &[u8]) -> &[u8] {
    match text.get(end_of_line(text)..) {
        Some([_, behind @ ..]) => behind,
        _ => &[],
    }
}

fn end_of_line(text: &[u8]) -> usize
    ensures { result ≤ length text.now }
{
    text.iter()
        .position(|byte| *byte == b'\n')
        .unwrap_or(text.len())
}

// Why the line is no step, and what it is.
fn report_line(alloc: Global, path: &str, number: u64, line: &[u8]) -> Result<String, AllocError> {
    let why = NoStep::of(line);
    let line = Shown(line);
    format!(in alloc; "{path}: line {number} is no step, because {why}: \"{line}\"")
}
