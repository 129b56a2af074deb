//! `rcluster failover`: a replica takes the place of its master, which hands its slots over.

use crate::finding::find;
use crate::moving::look_for_moves;
use crate::node_names::id_text;
use crate::questions::{Consent, Questions};
use crate::slot_map::SlotMap;
use byte_string::ByteString;
use cluster_config::NodeId;
use redirection::Address;
use smart_client::{Connections, Network};
use std::alloc::{AllocError, Global};
use std::cell::RefCell;
use std::fmt;
use std::time::{Duration, Instant};
use tool_io::{
    Named, Patience, Seen, Shown, Sockets, Terminals, ToolFailure, ToolRuntime, Unlisted, Waiting,
    Watched, end_wait, handover_failure, late_failure, master_failure, no_address, time_since,
    unknown_failure, write,
};

/// The replica that is to take the place of its master, the node that the run begins with, and for how long it waits.
pub struct Handover {
    start: Address,
    replica: NodeId,
    seconds: u64,
}

impl Drop for Handover {
    fn drop(self) {
        let Handover {
            start: _,
            replica: _,
            seconds: _,
        } = self;
    }
}

impl Handover {
    /// The handover that these texts are, or a sentence that says what is wrong with them. The run waits for so many seconds.
    pub fn read(
        alloc: Global,
        address: &str,
        node: &str,
        seconds: u64,
    ) -> Result<Result<Handover, String>, AllocError> {
        let Some(start) = Address::read(alloc, address.as_bytes())? else {
            return Ok(Err(no_address(alloc, address)?));
        };
        let Some(replica) = id_in(alloc, node)? else {
            return Ok(Err(no_node(alloc, node)?));
        };
        Ok(Ok(Handover {
            start,
            replica,
            seconds,
        }))
    }
}

// The id that the text stands for.
fn id_in(alloc: Global, text: &str) -> Result<Option<NodeId>, AllocError> {
    let id = ByteString::copy_from_slice(alloc, id_text(text).as_bytes())?;
    Ok(NodeId::new(id))
}

// A sentence for a text that names no node.
fn no_node(alloc: Global, text: &str) -> Result<String, AllocError> {
    format!(in alloc;
        "\"{}\" is no node: --node takes an id, 40 lowercase hexadecimal digits, or a number from 0 to 15",
        Shown(text.as_bytes())
    )
}

/// Has the replica take the place of its master, waits until the nodes know of it, and prints a line with the time that it took.
///
/// The replica isn't asked where it is found to be a master, or where a slot of its master is on the move. Where it doesn't take the place in
/// time it goes on to ask its master, and may take it later.
pub fn hand_over<R: ToolRuntime>(
    rt: R,
    wanted: Handover,
    terminals: Terminals,
) -> Result<(), ToolFailure> {
    let begun = Instant::now(&rt).ok();
    let seen = Seen::new(rt.alloc(), Waiting::new(terminals, begun));
    let outcome = match run(rt, &wanted, &seen) {
        Ok(done) => print(&rt, &done, &wanted.replica),
        Err(failure) => Err(handover_failure(rt.alloc(), failure, &seen)),
    };
    drop(seen);
    outcome
}

// What was done.
struct Done {
    // How many slots the replica has now.
    slots: u64,
    // The id of the master that had them, where that is known.
    from: Option<ByteString>,
    took: Duration,
}

impl Drop for Done {
    fn drop(self) {
        let Done {
            slots: _,
            from: _,
            took: _,
        } = self;
    }
}

// Does it over sockets.
fn run<R: ToolRuntime>(
    rt: R,
    wanted: &Handover,
    seen: &RefCell<Seen>,
) -> Result<Done, ToolFailure> {
    let connections = Connections::new(rt.alloc(), Sockets::new(rt, seen));
    run_over(&rt, Watched::new(connections, seen), wanted, seen)
}

// The same, over this way to the nodes.
fn run_over<R: ToolRuntime, N: Network + Drop>(
    rt: &R,
    network: N,
    wanted: &Handover,
    seen: &RefCell<Seen>,
) -> Result<Done, ToolFailure> {
    let mut nodes = Questions::new(rt.alloc(), network);
    let outcome = find_and_ask(rt, &mut nodes, wanted, seen);
    drop(nodes);
    outcome
}

// Finds the replica, and has it take the place if nothing is in the way.
fn find_and_ask<R: ToolRuntime, N: Network + Drop>(
    rt: &R,
    nodes: &mut Questions<N>,
    wanted: &Handover,
    seen: &RefCell<Seen>,
) -> Result<Done, ToolFailure> {
    let alloc = rt.alloc();
    let before = nodes.slots(&wanted.start)?;
    if before.lists(&wanted.replica) {
        return Err(master_failure(alloc, &wanted.replica));
    }
    let replica = find(alloc, nodes, &wanted.start, &wanted.replica, &before)?;
    look_for_moves(alloc, nodes, &before, &replica)?;
    ask(rt, nodes, wanted, &replica, &before, seen)
}

// Asks the replica at the address, and waits until it has slots and the others know of it.
fn ask<R: ToolRuntime, N: Network + Drop>(
    rt: &R,
    nodes: &mut Questions<N>,
    wanted: &Handover,
    replica: &Address,
    before: &SlotMap,
    seen: &RefCell<Seen>,
) -> Result<Done, ToolFailure> {
    let begun = Instant::now(rt).ok();
    end_wait(rt, seen);
    match nodes.failover(replica)? {
        Consent::Asks => {}
        Consent::HasNoMaster => return Err(master_failure(rt.alloc(), &wanted.replica)),
    }
    let mut patience = Patience::new(*rt, seen, wanted.seconds);
    let Some(after) = await_at(nodes, replica, wanted, &mut patience)? else {
        return Err(late_failure(rt.alloc(), &wanted.replica, wanted.seconds));
    };
    await_at_others(rt.alloc(), nodes, wanted, before, &mut patience)?;
    Ok(Done {
        slots: after.count_slots(&wanted.replica),
        from: before.former_master(&wanted.replica, &after)?,
        took: time_since(rt, begun),
    })
}

// Waits until the node at the address lists the replica as a master with slots. It gives what that one lists, or None where there is no time left.
fn await_at<R: ToolRuntime, N: Network + Drop>(
    nodes: &mut Questions<N>,
    at: &Address,
    wanted: &Handover,
    patience: &mut Patience<'_, R>,
) -> Result<Option<SlotMap>, ToolFailure> {
    // A loop has to end, so this one counts its turns.
    for turn in 0..u64::MAX {
        let slots = nodes.slots(at)?;
        if slots.lists(&wanted.replica) {
            return Ok(Some(slots));
        }
        let unlisted = Unlisted {
            at,
            node: &wanted.replica,
        };
        if !patience.wait(turn, unlisted) {
            return Ok(None);
        }
    }
    Ok(None)
}

// Waits until those that were masters before list it, and the node that was asked first.
fn await_at_others<R: ToolRuntime, N: Network + Drop>(
    alloc: Global,
    nodes: &mut Questions<N>,
    wanted: &Handover,
    before: &SlotMap,
    patience: &mut Patience<'_, R>,
) -> Result<(), ToolFailure> {
    let masters = before.addresses(alloc)?;
    for at in masters.iter() {
        await_at_other(alloc, nodes, at, wanted, patience)?;
    }
    await_at_other(alloc, nodes, &wanted.start, wanted, patience)
}

// One that can't be reached is passed over.
fn await_at_other<R: ToolRuntime, N: Network + Drop>(
    alloc: Global,
    nodes: &mut Questions<N>,
    at: &Address,
    wanted: &Handover,
    patience: &mut Patience<'_, R>,
) -> Result<(), ToolFailure> {
    match await_at(nodes, at, wanted, patience) {
        Ok(Some(_)) => Ok(()),
        Ok(None) => Err(unknown_failure(alloc, at, &wanted.replica, wanted.seconds)),
        Err(failure) => unless_unreached(failure),
    }
}

fn unless_unreached(failure: ToolFailure) -> Result<(), ToolFailure> {
    if failure.is_unreached() {
        return Ok(());
    }
    Err(failure)
}

// The master that had the slots, where it is known.
#[derive(Clone, Copy)]
struct Former<'a>(&'a Option<ByteString>);

impl fmt::Display for Former<'_> {
    fn fmt<W: fmt::Write>(&self, f: &mut fmt::Formatter<W>) -> fmt::Result {
        match self.0 {
            Some(id) => write!(f, " from node {}", Shown(id.as_slice())),
            None => Ok(()),
        }
    }
}

fn print<R: AllocGlobal + Print>(rt: &R, done: &Done, replica: &NodeId) -> Result<(), ToolFailure> {
    let line = format!(in rt.alloc();
        "handed over {} slots{} to {} in {}.{:03} s\n",
        done.slots,
        Former(&done.from),
        Named(replica),
        done.took.as_secs(),
        done.took.subsec_millis()
    )?;
    write(rt, line.as_bytes())
}
