//! `rcluster serve --network`: what becomes of the messages between the nodes.

use inputs::read_file;
use network_acts::{ActsFault, chance_acts, is_by_chance, text_acts};
use program_fault::{Failure, ProgramFault};
use serving::Network;
use std::alloc::{AllocError, Global};
use std::rt::Files;

/// What the network does to the messages between so many nodes, as the file of that path or the numbers in the text say it, or a sentence
/// that says why they don't.
pub fn network_of<R: Files + AllocGlobal>(
    rt: &R,
    text: &str,
    nodes: usize,
) -> Result<Result<Network, String>, Failure> {
    let alloc = rt.alloc();
    let read = match is_by_chance(text) {
        true => chance_acts(alloc, text, nodes),
        false => text_acts(alloc, read_file(rt, text)?.as_slice(), nodes),
    };
    match read {
        Ok(network) => Ok(Ok(network)),
        Err(ActsFault::Memory) => Err(Failure::from(ProgramFault::Memory)),
        Err(fault) => Ok(Err(sentence(alloc, text, fault)?)),
    }
}

fn sentence(alloc: Global, text: &str, fault: ActsFault) -> Result<String, AllocError> {
    match fault {
        ActsFault::Line(number, why) => format!(in alloc; "{text}: line {number} is wrong: {why}"),
        ActsFault::NotUtf8 => format!(in alloc; "{text}: the text isn't UTF-8"),
        ActsFault::NoChances | ActsFault::Memory => format!(in alloc;
            "\"{text}\" says no network: --network takes a file, or seed=N with lose=P%, repeat=P%, hold=P% and acts=N, and no more than 100% in all"
        ),
    }
}
