//! `rcluster reshard`: slots that move from one master to another.

use crate::node_names::id_text;
use byte_string::ByteString;
use cluster_config::NodeId;
use command_table::number_in;
use key_slot::{Slot, SlotRange};
use redirection::Address;
use resharder::{MovedSlot, Plan, ReshardFault, Resharder};
use smart_client::{Connections, Network};
use std::alloc::{AllocError, Global};
use std::cell::RefCell;
use std::rt::Clock;
use std::thread::sleep;
use std::time::{Duration, Instant};
use tool_io::{
    Patient, Progress, Seen, Shown, Sockets, Terminals, ToolFailure, ToolFault, ToolRuntime,
    Waiting, Watched, no_address, run_failure, time_since, unlisted_failure, write,
};

// How many milliseconds a run rests behind a slot whose keys it moved. A copy keeps its target for some 50 microseconds, and so
// few requests of other clients meet one.
const REST: u64 = 10;

/// The slots that are to be moved, the masters that they leave and come to, and the node that is asked who these are.
#[derive(Drop)]
pub struct Move<'a> {
    start: Address,
    from: &'a str,
    to: &'a str,
    slots: SlotRange,
}

impl<'a> Move<'a> {
    /// The move that these texts are, or a sentence that says what is wrong with them. Each master is told by its id or by its number, and a
    /// text that is neither is taken for an id.
    pub fn read(
        alloc: Global,
        address: &str,
        from: &'a str,
        to: &'a str,
        slots: &str,
    ) -> Result<Result<Move<'a>, String>, AllocError> {
        let Some(start) = Address::read(alloc, address.as_bytes())? else {
            return Ok(Err(no_address(alloc, address)?));
        };
        let Some(slots) = range_in(slots) else {
            return Ok(Err(no_range(alloc, slots)?));
        };
        Ok(Ok(Move {
            start,
            from: id_text(from),
            to: id_text(to),
            slots,
        }))
    }
}

/// Moves the slots, and prints a line once a slot is at its new master. A node is asked the same so often again at most.
/// Behind a slot whose keys were moved it rests, if another one is to come.
/// Where standard error is a terminal it tells meanwhile how far it has come, and once all slots are moved what was done.
/// Where it waits for long it tells for what. A target that refuses connections ends the run.
pub fn reshard<R: ToolRuntime>(
    rt: R,
    wanted: Move,
    limit: u64,
    terminals: Terminals,
) -> Result<(), ToolFailure> {
    let Move {
        start,
        from,
        to,
        slots,
    } = wanted;
    let begun = Instant::now(&rt).ok();
    let mut done = Done::new(&slots, terminals, begun);
    let plan = plan(rt.alloc(), start, from, to, slots, limit)?;
    let seen = Seen::new(rt.alloc(), Waiting::new(terminals, begun));
    let outcome = match run(rt, plan, &seen, &mut done) {
        Ok(Ok(())) => {
            done.tell(&rt, &seen, from == to);
            Ok(())
        }
        Ok(Err(fault)) => Err(failure_of(rt.alloc(), fault, &seen, done.next, from, to)),
        Err(failure) => Err(failure),
    };
    drop(seen);
    outcome
}

// Why the run stopped at that slot.
fn failure_of(
    alloc: Global,
    fault: ReshardFault,
    seen: &RefCell<Seen>,
    slot: u16,
    from: &str,
    to: &str,
) -> ToolFailure {
    match fault {
        ReshardFault::NotListed => unlisted_failure(alloc, seen, from, to),
        fault => run_failure(alloc, fault, seen, slot),
    }
}

fn plan(
    alloc: Global,
    start: Address,
    from: &str,
    to: &str,
    slots: SlotRange,
    limit: u64,
) -> Result<Plan, ToolFailure> {
    let from = id_in(alloc, from)?;
    let to = id_in(alloc, to)?;
    Ok(Plan::new(start, from, to, slots, limit))
}

// Does what is planned, and gives how that ended.
fn run<R: ToolRuntime>(
    rt: R,
    plan: Plan,
    seen: &RefCell<Seen>,
    done: &mut Done,
) -> Result<Result<(), ReshardFault>, ToolFailure> {
    let connections = Connections::new(rt.alloc(), Sockets::new(rt, seen));
    let network = Patient::new(rt, Watched::new(connections, seen), seen);
    run_over(&rt, network, plan, done)
}

// The same, over this way to the nodes.
fn run_over<R: ToolRuntime, N: Network + Drop>(
    rt: &R,
    network: N,
    plan: Plan,
    done: &mut Done,
) -> Result<Result<(), ReshardFault>, ToolFailure> {
    let mut resharder = Resharder::new(rt.alloc(), network, plan);
    let ended = move_all(rt, &mut resharder, done);
    drop(resharder);
    done.progress.end(rt);
    ended
}

// Moves one slot after another, prints a line for each, and tells how far it has come. It gives how the run ended.
fn move_all<R: ToolRuntime, N: Network + Drop>(
    rt: &R,
    resharder: &mut Resharder<N>,
    done: &mut Done,
) -> Result<Result<(), ReshardFault>, ToolFailure> {
    // A loop has to end, so this one counts the slots.
    'slots: for _ in 0..=Slot::COUNT {
        match resharder.move_next() {
            Ok(Some(moved)) => {
                done.progress.make_room(rt);
                print(rt, &moved)?;
                done.add(rt, &moved);
                if moved.keys > 0 && done.has_more() {
                    sleep(rt, Duration::from_millis(REST));
                }
            }
            Ok(None) => return Ok(Ok(())),
            Err(fault) => return Ok(Err(fault)),
        }
    }
    Ok(Ok(()))
}

// What a run has done so far.
#[derive(Clone, Copy)]
struct Done {
    begun: Option<Instant>,
    // The slot that it moves next, or moves now.
    next: u16,
    slots: u64,
    keys: u64,
    progress: Progress,
}

impl Done {
    fn new(slots: &SlotRange, terminals: Terminals, begun: Option<Instant>) -> Done {
        Done {
            begun,
            next: slots.first.get(),
            slots: 0,
            keys: 0,
            progress: Progress::new(terminals, count_of(slots), begun),
        }
    }

    fn add<R: Eprint + Clock>(&mut self, rt: &R, moved: &MovedSlot) {
        self.next = moved.slot.get().saturating_add(1);
        self.slots = self.slots.saturating_add(1);
        self.keys = self.keys.saturating_add(moved.keys);
        self.progress.tell(rt, self.slots, self.keys);
    }

    // Whether slots are left behind those that are done.
    fn has_more(&self) -> bool {
        self.slots < self.progress.slots()
    }

    // Where it can't be told what was done, it is done all the same.
    fn tell<R: Eprint + Clock>(&self, rt: &R, seen: &RefCell<Seen>, is_one_master: bool) {
        if is_one_master {
            tell_of_one_master(rt);
        }
        let moved = imports_of(seen);
        let before = self.slots.saturating_sub(moved);
        let took = time_since(rt, self.begun);
        let _told = eprintln!(rt;
            "rcluster: slots moved: {moved}, keys moved: {}, slots that were there before: {before}, seconds: {}.{:03}",
            self.keys,
            took.as_secs(),
            took.subsec_millis()
        );
    }
}

// Each slot that this run moves is asked once to come to its new master.
fn imports_of(seen: &RefCell<Seen>) -> u64 {
    match seen.try_borrow() {
        Ok(seen) => seen.imports,
        Err(_) => 0,
    }
}

// Where the slots are to leave a master for itself.
fn tell_of_one_master<R: Eprint>(rt: &R) {
    let _told = eprintln!(rt;
        "rcluster: --from and --to are the same master, so no slot was to be moved"
    );
}

// A text that can't be an id is listed by nobody.
fn id_in(alloc: Global, text: &str) -> Result<NodeId, ToolFailure> {
    match NodeId::new(ByteString::copy_from_slice(alloc, text.as_bytes())?) {
        Some(id) => Ok(id),
        None => Err(ToolFailure::new(
            ToolFault::Reshard(ReshardFault::NotListed),
            format!(in alloc;
                "\"{}\" is no id of a node: an id is 40 lowercase hexadecimal digits, as CLUSTER SLOTS lists them; a number from 0 to 15 stands for one, too",
                Shown(text.as_bytes())
            ),
        )),
    }
}

// A sentence for a text that is no slot and no range of slots.
fn no_range(alloc: Global, text: &str) -> Result<String, AllocError> {
    format!(in alloc;
        "\"{}\" is no slot and no range: --slots takes a slot from 0 to 16383, or A-B, two of them, A not above B",
        Shown(text.as_bytes())
    )
}

// The slots `first-last`, or one slot.
fn range_in(text: &str) -> Option<SlotRange> {
    let (first, last) = text.split_once('-').unwrap_or((text, text));
    let first = slot_in(first)?;
    let last = slot_in(last)?;
    if first.get() > last.get() {
        return None;
    }
    Some(SlotRange { first, last })
}

/// How many slots there are, of which the last isn't below the first.
pub(crate) fn count_of(slots: &SlotRange) -> u64 {
    let behind = u64::from(slots.last.get()) + 1;
    behind.saturating_sub(u64::from(slots.first.get()))
}

fn slot_in(text: &str) -> Option<Slot> {
    Slot::new(u16::try_from(number_in(text.as_bytes())?).ok()?)
}

// It is written at once, so that a reader knows of each slot when it has moved.
fn print<R: AllocGlobal + Print>(rt: &R, moved: &MovedSlot) -> Result<(), ToolFailure> {
    let mut line = Vec::new(rt.alloc());
    moved.print(&mut line)?;
    write(rt, line.as_slice())
}
