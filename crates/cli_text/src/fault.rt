//! Why no command is read.

use std::alloc::AllocError;
use std::{fmt, io};

/// Why a line is no command.
#[derive(Clone, Copy, PartialEq, Eq, Debug)]
pub enum NoCommand {
    /// A quote isn't closed.
    OpenQuote,
    /// A closing quote isn't followed by a blank or by the end of the line.
    BehindQuote,
    /// It has more words or bytes than a request may have.
    TooLong,
}

impl fmt::Display for NoCommand {
    fn fmt<W: fmt::Write>(&self, f: &mut fmt::Formatter<W>) -> fmt::Result {
        match self {
            NoCommand::OpenQuote => write!(f, "a quote isn't closed"),
            NoCommand::BehindQuote => write!(f, "something stands right behind a closing quote"),
            NoCommand::TooLong => write!(f, "it has more words or bytes than a request may have"),
        }
    }
}

/// Why no command is read. What was read of its line is gone.
#[derive(Debug, Drop)]
pub enum CommandFault {
    /// The input can't be read.
    Unreadable(io::Error),
    /// The line of this number is no command. Lines are counted from 1.
    Line(u64, NoCommand),
    /// Memory was refused.
    Memory,
}

/// Why a line isn't read, or isn't parted into words.
#[derive(Debug, Drop)]
pub(crate) enum LineFault {
    /// The input can't be read.
    Unreadable(io::Error),
    /// It is no command.
    NoCommand(NoCommand),
    /// Memory was refused.
    Memory,
}

impl LineFault {
    /// The fault of the line of this number.
    pub(crate) fn at(self, number: u64) -> CommandFault {
        match self {
            LineFault::Unreadable(error) => CommandFault::Unreadable(error),
            LineFault::NoCommand(why) => CommandFault::Line(number, why),
            LineFault::Memory => CommandFault::Memory,
        }
    }
}

impl From<NoCommand> for LineFault {
    fn from(why: NoCommand) -> LineFault {
        LineFault::NoCommand(why)
    }
}

impl From<AllocError> for LineFault {
    fn from(_refused: AllocError) -> LineFault {
        LineFault::Memory
    }
}
