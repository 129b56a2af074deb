//! A cluster of masters with as many replicas each, all on this machine. The masters share the slots evenly.

use crate::failure::{InputFailure, InputFault};
use crate::verbs::FIRST_PORT;
use cluster_config::Config;
use config_report::report;
use config_text::read_config;
use std::alloc::{AllocError, Global};
use std::fmt::Write;

/// How many nodes may be served without a file at most, and so how many masters.
pub const MOST_NODES: u64 = 16;

/// How many replicas a master has at most: with more there would be too many nodes.
pub const MOST_REPLICAS: u64 = MOST_NODES - 1;

/// The greatest port.
pub const LAST_PORT: u64 = 65_535;

// How many bytes of its stream a node keeps where masters have replicas and nothing is said. A replica that lacks more gets all keys.
const LONG_BACKLOG: u64 = 16_777_216;

/// Masters with as many replicas each, on this machine.
#[derive(Clone, Copy)]
pub struct Masters {
    /// How many masters there are.
    pub count: u64,
    /// How many replicas each of them has.
    pub replicas: u64,
    /// The port of the first node, from which those of the others rise, or 0 where each is to get a free one.
    pub first_port: u64,
    /// How many bytes of its stream a node keeps, or None where nothing is said of it.
    pub backlog: Option<u64>,
}

impl Masters {
    /// How many free ports are wanted for the nodes.
    pub fn free_ports(&self) -> usize {
        if self.first_port > 0 || wrong_number(self).is_some() {
            return 0;
        }
        self.nodes() as usize
    }

    // The port of the node of that number. Where free ports are wanted and none was found, it is one from which the numbers can be checked.
    fn port(&self, number: u64, free_ports: &[u16]) -> u64 {
        if let Some(port) = free_ports.get(number as usize) {
            return u64::from(*port);
        }
        let first = match self.first_port {
            0 => FIRST_PORT,
            port => port,
        };
        first.saturating_add(number)
    }

    fn nodes(&self) -> u64 {
        self.count.saturating_mul(self.replicas.saturating_add(1))
    }

    // What the configuration says of the backlog, if it says anything.
    fn backlog(&self) -> Option<u64> {
        if self.replicas == 0 {
            return self.backlog;
        }
        self.backlog.or(Some(LONG_BACKLOG))
    }
}

/// The cluster of these masters, or a sentence that says what is wrong with their numbers. First come the masters, then the replicas
/// of the first master, and so on. Where free ports are wanted, these are their ports.
pub fn cluster_of_masters(
    alloc: Global,
    masters: &Masters,
    free_ports: &[u16],
) -> Result<Result<Config, &'static str>, InputFailure> {
    if let Some(wrong) = wrong_number(masters) {
        return Ok(Err(wrong));
    }
    let text = text_of(alloc, masters, free_ports)?;
    match read_config(alloc, text.as_bytes()) {
        Ok(config) => Ok(Ok(config)),
        Err(fault) => {
            let detail = report(alloc, text.as_bytes(), fault);
            Err(InputFailure::new(InputFault::Config(fault), detail))
        }
    }
}

fn wrong_number(masters: &Masters) -> Option<&'static str> {
    if masters.count == 0 || masters.count > MOST_NODES {
        return Some("--masters takes a number from 1 to 16");
    }
    if masters.nodes() > MOST_NODES {
        return Some("--masters and --replicas make more than 16 nodes");
    }
    if masters.first_port.saturating_add(masters.nodes()) > LAST_PORT + 1 {
        return Some("the ports of the nodes rise from --port, and the last one is above 65535");
    }
    None
}

// The cluster as a configuration spells it.
fn text_of(alloc: Global, masters: &Masters, free_ports: &[u16]) -> Result<String, AllocError> {
    let mut text = String::new(alloc);
    match write_cluster(&mut text, masters, free_ports) {
        Ok(()) => Ok(text),
        Err(refused) => {
            drop(text);
            Err(refused)
        }
    }
}

fn write_cluster(
    text: &mut String,
    masters: &Masters,
    free_ports: &[u16],
) -> Result<(), AllocError> {
    write!(text, "{{\"tick_ms\":100,\"node_timeout\":20,")?;
    if let Some(backlog) = masters.backlog() {
        write!(text, "\"backlog\":{backlog},")?;
    }
    write!(text, "\"nodes\":[")?;
    write_nodes(text, masters, free_ports)?;
    write!(text, "],\"voters\":[")?;
    for number in 0..masters.count {
        write!(text, "{}\"{number:040x}\"", comma(number))?;
    }
    write!(text, "]}}")?;
    Ok(())
}

fn write_nodes(text: &mut String, masters: &Masters, free_ports: &[u16]) -> Result<(), AllocError> {
    for number in 0..masters.nodes() {
        let port = masters.port(number, free_ports);
        write!(
            text,
            "{}{{\"id\":\"{number:040x}\",\"host\":\"127.0.0.1\",\"port\":{port},",
            comma(number)
        )?;
        match number.checked_sub(masters.count) {
            None => write_slots(text, number, masters.count)?,
            Some(replica) => {
                let master = replica.checked_div(masters.replicas).unwrap_or(0);
                write!(text, "\"replica_of\":\"{master:040x}\"}}")?;
            }
        }
    }
    Ok(())
}

// What stands before the item of that number in a list.
fn comma(number: u64) -> &'static str {
    if number == 0 { "" } else { "," }
}

fn write_slots(text: &mut String, number: u64, count: u64) -> Result<(), AllocError> {
    let first = first_slot(number, count);
    let last = first_slot(number.saturating_add(1), count).saturating_sub(1);
    write!(text, "\"slots\":[[{first},{last}]]}}")?;
    Ok(())
}

// The first slot of the master of that number, or how many slots there are behind the last master. Each share is rounded, as
// redis-cli does it.
fn first_slot(number: u64, count: u64) -> u64 {
    let count = count.clamp(1, MOST_NODES);
    (2 * 16384 * number.min(count) + count) / (2 * count)
}
