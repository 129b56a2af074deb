//! Bytes and connections as a line shows them.

use connections::Conn;
use std::fmt;
use tool_io::Shown;

/// Bytes in double quotes, of which the first hundred are shown.
#[derive(Clone, Copy)]
pub(crate) struct Quoted<'a>(pub(crate) &'a [u8]);

impl fmt::Display for Quoted<'_> {
    fn fmt<W: fmt::Write>(&self, f: &mut fmt::Formatter<W>) -> fmt::Result {
        write!(f, "\"{}\"", Shown(self.0))
    }
}

/// A connection, by its key and generation.
#[derive(Clone, Copy)]
pub(crate) struct Named(pub(crate) Conn);

impl fmt::Display for Named {
    fn fmt<W: fmt::Write>(&self, f: &mut fmt::Formatter<W>) -> fmt::Result {
        write!(f, "{}/{}", self.0.key, self.0.generation)
    }
}
