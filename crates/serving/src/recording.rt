//! `rcluster serve --record`: what the nodes did, as a file.

use audit::WorldRun;
use node_cell::Entry;
use program_fault::{Failure, ProgramFault};
use run_record::write_entry;
use slot_table::NodeNo;
use std::alloc::Global;
use std::fs::OpenOptions;
use std::io::{ErrorKind, Write};
use std::rt::Files;
use std::{fs, io};

// How many bytes of the text are written at once. The last line may pass that.
const BLOCK: usize = 65_536;

/// Makes sure that there is a file at the path which can be written, so that another one is refused before the cluster is served. What
/// the file has is kept until the run is written.
pub fn begin_record<R: Files + AllocGlobal>(rt: &R, path: &str) -> Result<(), Failure> {
    let mut how = OpenOptions::new();
    how.write(true).create(true);
    match how.open(rt, path) {
        Ok(_file) => Ok(()),
        Err(error) => Err(unwritten(rt.alloc(), path, &error)),
    }
}

/// Writes the run to the file at the path, a line an entry, by rising ticket.
pub(crate) fn record<R: Files + AllocGlobal>(
    rt: &R,
    path: &str,
    run: &WorldRun,
) -> Result<(), Failure> {
    let alloc = rt.alloc();
    let written = fs::create(rt, path).and_then(|file| write_run(alloc, file, run));
    written.map_err(|error| unwritten(alloc, path, &error))
}

fn unwritten(alloc: Global, path: &str, error: &io::Error) -> Failure {
    if error.kind() == ErrorKind::OutOfMemory {
        return Failure::from(ProgramFault::Memory);
    }
    let detail = format!(in alloc; "{path} can't be written: {error}");
    Failure::new(ProgramFault::Output, detail)
}

fn write_run<W: Write + Drop>(alloc: Global, mut file: W, run: &WorldRun) -> io::Result<()> {
    let mut text = String::new(alloc);
    let mut pages = Pages::of(run);
    for ticket in 0..run.steps() {
        pages.write_line(&mut text, ticket)?;
        if text.len() >= BLOCK {
            file.write_all(text.as_bytes())?;
            text.clear();
        }
    }
    file.write_all(text.as_bytes())?;
    file.flush()
}

// The journals of the nodes, and how many entries of each were written.
#[derive(Drop)]
struct Pages<'a> {
    run: &'a WorldRun,
    written: [usize; NodeNo::COUNT],
}

impl<'a> Pages<'a> {
    fn of(run: &'a WorldRun) -> Pages<'a> {
        Pages {
            run,
            written: [0; NodeNo::COUNT],
        }
    }

    // Puts the line of the entry with that ticket behind the text. One node has it, as the next of its entries.
    fn write_line(&mut self, text: &mut String, ticket: u64) -> io::Result<()> {
        let run = self.run;
        for (number, written) in self.written.iter_mut().enumerate() {
            if let Some(entry) = entry_at(run, number, *written)
                && entry.ticket() == ticket
            {
                *written = written.saturating_add(1);
                return Ok(write_entry(text, number, entry)?);
            }
        }
        Ok(())
    }
}

// The entry at that place of the journal of the node with that number.
fn entry_at(run: &WorldRun, node: usize, place: usize) -> Option<&Entry> {
    let node = NodeNo::new(u8::try_from(node).ok()?)?;
    run.journal(node)?.get(place)
}
