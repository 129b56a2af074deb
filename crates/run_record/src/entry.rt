//! An entry as a line.

use crate::event::write_event;
use crate::outcome::write_outputs;
use node_cell::Entry;
use std::alloc::AllocError;
use std::fmt::Write;

/// Puts a line behind the text for this entry of the node with that number: the ticket, what happened, and behind ` -> ` what came of it.
///
/// Of a word, a key or a reply it shows the first hundred bytes, and of a value in a message none.
pub fn write_entry(text: &mut String, node: usize, entry: &Entry) -> Result<(), AllocError> {
    write!(text, "{} node {node} ", entry.ticket())?;
    match entry {
        Entry::Skipped { ticket: _ } => write!(text, "skipped")?,
        Entry::Step { event, outputs } => {
            write_event(text, event)?;
            write_outputs(text, outputs)?;
        }
    }
    text.push('\n')
}
