//! What a bad network does, as a text says it.

use crate::fault::{ActsFault, LineFault};
use command_table::{count_in, positive_in};
use link_ends::Act;
use std::alloc::{AllocError, Global};

// A link has no more acts, and an act no greater number.
const MOST: u64 = 1_000_000;

/// The acts that the text says, for so many nodes: those of each link, in the order of the nodes that receive, and for each of these in the
/// order of those that send.
///
/// A line has the number of the node that sends, that of the node that receives, and acts: `pass`, `lose`, `repeat=N` and `hold=N`, each of
/// which may end with `*COUNT`, for so many messages. Lines of one link come behind each other. A line that is empty or begins with `#` says nothing.
pub fn text_acts(alloc: Global, text: &[u8], nodes: usize) -> Result<Vec<Vec<Act>>, ActsFault> {
    let Ok(text) = str::from_utf8(text) else {
        return Err(ActsFault::NotUtf8);
    };
    let mut all = no_acts(alloc, nodes)?;
    for (before, line) in text.lines().enumerate() {
        read_line(line, nodes, &mut all).map_err(|wrong| wrong.in_line(before.saturating_add(1)))?;
    }
    Ok(all)
}

/// No acts, for each link of so many nodes.
pub(crate) fn no_acts(alloc: Global, nodes: usize) -> Result<Vec<Vec<Act>>, AllocError> {
    let links = nodes.saturating_mul(nodes);
    let mut all = Vec::with_capacity(alloc, links)?;
    for _ in 0..links {
        all.push(Vec::new(alloc)).map_err(AllocError::from)?;
    }
    Ok(all)
}

// Why a line can't be read.
enum Wrong {
    Memory,
    Line(LineFault),
}

impl Wrong {
    fn in_line(self, number: usize) -> ActsFault {
        match self {
            Wrong::Memory => ActsFault::Memory,
            Wrong::Line(why) => ActsFault::Line(number, why),
        }
    }
}

impl From<AllocError> for Wrong {
    fn from(_refused: AllocError) -> Wrong {
        Wrong::Memory
    }
}

fn read_line(line: &str, nodes: usize, all: &mut [Vec<Act>]) -> Result<(), Wrong> {
    if line.is_empty() || line.starts_with('#') {
        return Ok(());
    }
    let mut words = line.split(' ');
    let from = node_in(words.next(), nodes)?;
    let to = node_in(words.next(), nodes)?;
    let link = to.saturating_mul(nodes).saturating_add(from);
    let Some(acts) = all.get_mut(link) else {
        return Err(Wrong::Line(LineFault::Nodes));
    };
    for word in words {
        add(word, acts)?;
    }
    Ok(())
}

fn node_in(word: Option<&str>, nodes: usize) -> Result<usize, Wrong> {
    match word.and_then(|word| count_in(word.as_bytes())) {
        Some(number) if number < nodes as u64 => Ok(number as usize),
        _ => Err(Wrong::Line(LineFault::Nodes)),
    }
}

// Adds the acts that the word says.
fn add(word: &str, acts: &mut Vec<Act>) -> Result<(), Wrong> {
    let (name, count) = match word.split_once('*') {
        Some((name, count)) => (name, number_in(count)?),
        None => (word, 1),
    };
    let act = act_in(name)?;
    if (acts.len() as u64).saturating_add(u64::from(count)) > MOST {
        return Err(Wrong::Line(LineFault::TooMany));
    }
    for _ in 0..count {
        acts.push(act).map_err(AllocError::from)?;
    }
    Ok(())
}

fn act_in(name: &str) -> Result<Act, Wrong> {
    match name {
        "pass" => Ok(Act::Pass),
        "lose" => Ok(Act::Lose),
        _ => match name.split_once('=') {
            Some(("repeat", number)) => Ok(Act::Repeat(number_in(number)?)),
            Some(("hold", number)) => Ok(Act::Hold(number_in(number)?)),
            _ => Err(Wrong::Line(LineFault::Act)),
        },
    }
}

// A number from 1 to a million.
fn number_in(text: &str) -> Result<u32, Wrong> {
    match positive_in(text.as_bytes()) {
        Some(number) if number <= MOST => Ok(number as u32),
        _ => Err(Wrong::Line(LineFault::Act)),
    }
}
