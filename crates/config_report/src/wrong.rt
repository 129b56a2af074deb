//! What is wrong with a configuration, and where.
use std::alloc::{AllocError, AllocFailed, Global};
use std::fmt;
use std::fmt::Display;

/// Why a walk over a configuration ends before the end.
#[derive(Drop)]
pub(crate) enum Halt {
    /// Something is wrong, as the sentence says.
    Wrong(String),
    /// Memory was refused.
    Memory,
}

impl From<AllocError> for Halt {
    fn from(_error: AllocError) -> Halt {
        Halt::Memory
    }
}

impl<T: Drop> From<AllocFailed<T>> for Halt {
    fn from(_error: AllocFailed<T>) -> Halt {
        Halt::Memory
    }
}

/// What halts a walk where this is wrong at that place.
pub(crate) fn wrong<W: Display + Drop>(alloc: Global, place: Place<'_>, what: W) -> Halt {
    match format!(in alloc; "{place}{what}") {
        Ok(sentence) => Halt::Wrong(sentence),
        Err(_) => Halt::Memory,
    }
}

/// A place in a configuration. It is printed with the colon that parts it from what is said of it.
#[derive(Clone, Copy)]
pub(crate) enum Place<'a> {
    /// The configuration as a whole, of which no place is printed.
    Whole,
    /// A character of the text.
    Character {
        /// Its line, from 1.
        line: usize,
        /// Its place in the line, from 1.
        column: usize,
    },
    /// A member of that name.
    Member(&'a str),
    /// The node of that number.
    Node(usize),
    /// A node's member of that name.
    NodeMember(usize, &'a str),
    /// A node's range of slots, by its place among them.
    Range(usize, usize),
    /// The voter at that place.
    Voter(usize),
}

impl Display for Place<'_> {
    fn fmt<W: fmt::Write>(&self, f: &mut fmt::Formatter<W>) -> fmt::Result {
        match *self {
            Place::Whole => Ok(()),
            Place::Character { line, column } => write!(f, "line {line}, column {column}: "),
            Place::Member(name) => write!(f, "{name}: "),
            Place::Node(number) => write!(f, "nodes[{number}]: "),
            Place::NodeMember(number, name) => write!(f, "nodes[{number}].{name}: "),
            Place::Range(number, range) => write!(f, "nodes[{number}].slots[{range}]: "),
            Place::Voter(voter) => write!(f, "voters[{voter}]: "),
        }
    }
}
