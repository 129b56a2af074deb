//! Why words are not a command.
ghost use Rattle.std.specs.Prelude.{◌≡◌};
ghost use Rattle.command_table.specs.ErrorLine.{line_of};

use crate::error_line::ErrorLine;
use crate::names::Name;
use thiserror::Error;

/// Why words are not a command.
#[derive(Clone, Copy, PartialEq, Eq, Debug, Error)]
pub enum CommandFault {
    /// No command has the name.
    #[error("unknown command")]
    Unknown,
    /// CLUSTER has no subcommand of the name.
    #[error("unknown subcommand")]
    UnknownSubcommand,
    /// The command does not take this number of arguments.
    #[error("wrong number of arguments")]
    Arity(Name),
    /// An argument is not an option of the command, or there are too many options.
    #[error("syntax error")]
    Syntax,
    /// The word is not the number of a slot.
    #[error("invalid slot")]
    InvalidSlot,
    /// The word is not a number that the command takes.
    #[error("not an integer or out of range")]
    NotAnInteger,
}

impl CommandFault {
    /// The error reply to the words.
    pub fn line(self) -> ErrorLine
        ensures { result ≡ line_of self }
    {
        match self {
            CommandFault::Unknown => ErrorLine::UnknownCommand,
            CommandFault::UnknownSubcommand => ErrorLine::UnknownSubcommand,
            CommandFault::Arity(name) => ErrorLine::WrongArity(name),
            CommandFault::Syntax => ErrorLine::Syntax,
            CommandFault::InvalidSlot => ErrorLine::InvalidSlot,
            CommandFault::NotAnInteger => ErrorLine::NotAnInteger,
        }
    }
}
