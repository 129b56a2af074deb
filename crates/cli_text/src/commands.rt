//! Commands, as they come from an input.

use crate::fault::{CommandFault, LineFault, NoCommand};
use crate::lines::read_line;
use crate::splitting::words_in;
use resp_values::Words;
use std::alloc::{AllocError, Global};
use std::io::{BufReader, Read};

/// Commands, one a line, as they come from an input.
///
/// Words are separated by blanks, and may be quoted as redis-cli reads them.
#[derive(Drop)]
pub struct Commands<R: Read + Drop> {
    alloc: Global,
    reader: BufReader<R>,
    // The line that was read last, whose room is used again.
    line: Vec<u8>,
    // How many lines were read.
    count: u64,
}

impl<R: Read + Drop> Commands<R> {
    /// The commands that come from this input.
    pub fn new(alloc: Global, input: R) -> Result<Commands<R>, AllocError> {
        match BufReader::new(alloc, input) {
            Ok(reader) => Ok(Commands {
                alloc,
                reader,
                line: Vec::new(alloc),
                count: 0,
            }),
            Err(_) => Err(AllocError),
        }
    }

    /// The next command, or None where no line is left. Lines without a word are passed over.
    pub fn next(&mut self) -> Result<Option<Words>, CommandFault> {
        // A loop has to end, so this one counts the lines.
        'lines: for _ in 0..u64::MAX {
            let number = self.count.saturating_add(1);
            match self.read() {
                Ok(Line::End) => return Ok(None),
                Ok(Line::Empty) => self.count = number,
                Ok(Line::Command(words)) => {
                    self.count = number;
                    return Ok(Some(words));
                }
                Err(fault) => return Err(fault.at(number)),
            }
        }
        Ok(None)
    }

    // Reads the next line.
    fn read(&mut self) -> Result<Line, LineFault> {
        if !read_line(&mut self.reader, &mut self.line)? {
            return Ok(Line::End);
        }
        let words = words_in(self.alloc, self.line.as_slice())?;
        if words.is_empty() {
            return Ok(Line::Empty);
        }
        match Words::new(words) {
            Some(words) => Ok(Line::Command(words)),
            None => Err(LineFault::from(NoCommand::TooLong)),
        }
    }
}

// What a line is.
#[derive(Drop)]
enum Line {
    // The input has ended.
    End,
    // It has no word.
    Empty,
    Command(Words),
}
