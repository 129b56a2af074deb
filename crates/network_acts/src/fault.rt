//! Why a text doesn't say what a bad network does.

use std::alloc::AllocError;
use std::fmt;

/// Why a text doesn't say what a bad network does.
#[derive(Clone, Copy, PartialEq, Eq, Debug)]
pub enum ActsFault {
    /// Memory was refused.
    Memory,
    /// The line of this number, from 1 on, is wrong.
    Line(usize, LineFault),
    /// It isn't UTF-8.
    NotUtf8,
    /// It isn't `seed=N` with `lose`, `repeat` and `hold` in percent, of 100 at most together, and `acts`.
    NoChances,
}

/// What is wrong with a line.
#[derive(Clone, Copy, PartialEq, Eq, Debug)]
pub enum LineFault {
    /// It doesn't begin with the numbers of two nodes of the cluster.
    Nodes,
    /// A word behind these is no act.
    Act,
    /// There are more than a million acts.
    TooMany,
}

impl From<AllocError> for ActsFault {
    fn from(_refused: AllocError) -> ActsFault {
        ActsFault::Memory
    }
}

impl fmt::Display for LineFault {
    fn fmt<W: fmt::Write>(&self, f: &mut fmt::Formatter<W>) -> fmt::Result {
        match self {
            LineFault::Nodes => write!(
                f,
                "it doesn't begin with the numbers of two nodes, of the one that sends and of the one that receives"
            ),
            LineFault::Act => write!(
                f,
                "an act is pass, lose, repeat=N or hold=N, with N from 1 to 1000000, and may end with *COUNT"
            ),
            LineFault::TooMany => write!(f, "a link has at most 1000000 acts"),
        }
    }
}
