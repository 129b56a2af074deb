//! `rcluster serve --orders`: orders that are read from standard input while the cluster is served.

use cluster_controls::Orders;
use command_table::count_in;
use program_fault::{Failure, ProgramFault};
use std::alloc::Global;
use std::io::BufRead;
use std::sync::{Arc, Wait};
use std::thread;
use std::thread::Threads;
use tool_io::Shown;

// An order.
#[derive(Clone, Copy, PartialEq, Eq)]
enum Order {
    // The node of that number is to be stopped.
    Stop(usize),
    // It is to be told how the nodes are.
    Status,
}

/// Starts a thread that reads the orders, each of which is a line, and gives them to a cluster of so many nodes. It ends with the
/// input, or with the program.
pub fn start_reading<R>(rt: R, orders: &Arc<Orders, Global>, nodes: usize) -> Result<(), Failure>
where
    R: AllocGlobal
        + Input<Reader: Send>
        + Eprint
        + Threads
        + Wait
        + Copy
        + Drop
        + Send
        + Sync
        + 'static,
{
    let orders = Arc::try_clone(orders)?;
    match thread::spawn(&rt, move || read_all(&rt, &*orders, nodes)) {
        Ok(_thread) => Ok(()),
        Err(_) => Err(Failure::from(ProgramFault::Thread)),
    }
}

fn read_all<R: AllocGlobal + Input + Eprint + Wait>(rt: &R, orders: &Orders, nodes: usize) {
    let mut reader = rt.reader();
    let mut line = Vec::new(rt.alloc());
    for _ in rt.forever() {
        line.clear();
        match reader.read_until(b'\n', &mut line) {
            Ok(0) => return,
            Ok(_) => obey(rt, orders, nodes, line.as_slice()),
            Err(error) => {
                let _told = eprintln!(rt; "rcluster: no more orders are read: {error}");
                return;
            }
        }
    }
}

// Gives the order in the line, if there is one. If standard error can't be written, that is ignored.
fn obey<R: Eprint>(rt: &R, orders: &Orders, nodes: usize, line: &[u8]) {
    let line = line.trim_ascii();
    if line.is_empty() {
        return;
    }
    match order_in(line, nodes) {
        Some(Order::Stop(node)) => orders.stop(node),
        Some(Order::Status) => orders.ask(),
        None => {
            let _told = eprintln!(rt;
                "rcluster: \"{}\" is no order: there are `status`, and `stop N` with the number of a node from 0 to {}",
                Shown(line),
                nodes.saturating_sub(1)
            );
        }
    }
}

fn order_in(line: &[u8], nodes: usize) -> Option<Order> {
    let text = str::from_utf8(line).ok()?;
    if text == "status" {
        return Some(Order::Status);
    }
    let (verb, node) = text.split_once(' ')?;
    if verb != "stop" {
        return None;
    }
    let node = count_in(node.trim().as_bytes())? as usize;
    if node >= nodes {
        return None;
    }
    Some(Order::Stop(node))
}
