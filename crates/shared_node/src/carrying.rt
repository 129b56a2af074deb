//! The messages between the nodes.

use crate::changes::Changes;
use crate::node::Node;
use crate::served::SharedCluster;
use node_cell::{HasLinks, HoldsCell, Taken};
use slot_table::NodeNo;
use std::alloc::Global;
use std::mem;
use std::rt::Clock;
use std::sync::Wait;
use std::time::{Duration, Instant};

// How many seconds the thread sleeps at most before it looks for messages again. Only a safety net: the thread is woken for every message.
const LONG: u64 = 3600;

// How many messages of a node are taken at most under one hold of the lock, before clients are let in.
const MOST_TAKEN: u32 = 64;

// Once they took this many microseconds no more of them are taken under that hold.
const LONG_HOLD: u64 = 500;

// For how many messages the clock is read once.
const MESSAGES_A_READING: u32 = 8;

// For how many microseconds the thread leaves the node to those who have waited long for it, where it has more messages for it.
const TURN: u64 = 200;

// How many milliseconds it sleeps where memory was refused for messages that wait for their links.
const PAUSE: u64 = 10;

/// Carries the messages of the node of that number until the end: delivers those that come to it, and sends its own. Which slots leave the
/// node meanwhile is told. Once the node is closed, what comes to it is lost, and its own stay with it.
pub fn carry<C: HasLinks<R> + Drop, R: Clock + Wait>(
    rt: &R,
    alloc: Global,
    cluster: &SharedCluster<C>,
    number: usize,
) {
    let Some(node) = cluster.node(number) else {
        return;
    };
    let mut changes = Changes::new(alloc, cluster.witness(), number);
    for _ in rt.forever() {
        let seen = node.shared.mail_rings();
        if cluster.stop.has_ended() {
            return;
        }
        let round = lock_and_exchange(rt, cluster.nodes.len(), node, &mut changes);
        cluster.call(round.called);
        if !round.has_received {
            node.shared.wait_for_mail(rt, seen, round.rest());
        } else if round.is_unfinished() && node.shared.is_pressed() {
            cluster.stop.sleep(rt, Duration::from_micros(TURN));
        }
    }
}

/// Carries what steps of the node of that number left, as far as that goes at once: it sends the messages, has each node that isn't locked
/// take them, and delivers what these answer. So a client that waits for what comes of it mostly waits for no other thread. What finds its
/// node locked is left to the thread that carries that node's messages.
///
/// No conversation is told of a reply that has come by the answers: the caller does that.
pub(crate) fn carry_at_once<C: HasLinks<R> + Drop, R: Clock + Wait>(
    rt: &R,
    alloc: Global,
    cluster: &SharedCluster<C>,
    number: usize,
) {
    let mut called = send(rt, alloc, cluster, number, Replies::AreTold);
    for (other, node) in cluster.nodes.iter().enumerate() {
        if called.take(other) && !try_exchange(rt, alloc, cluster, number, other, node) {
            node.shared.ring_for_mail();
        }
    }
    let called = send(rt, alloc, cluster, number, Replies::AreKept);
    cluster.call(called);
}

/// Whether conversations are told of replies that have come.
#[derive(Clone, Copy, PartialEq, Eq)]
pub(crate) enum Replies {
    /// They are told.
    AreTold,
    /// The replies are kept, and the caller tells of them.
    AreKept,
}

/// Sends the messages of the node of that number, delivers those that have come to it, and says which nodes are to look for messages.
pub(crate) fn send<C: HasLinks<R> + Drop, R: Clock + Wait>(
    rt: &R,
    alloc: Global,
    cluster: &SharedCluster<C>,
    number: usize,
    replies: Replies,
) -> Called {
    let Some(node) = cluster.node(number) else {
        return Called::none();
    };
    let mut changes = Changes::new(alloc, cluster.witness(), number);
    let mut cell = node.shared.lock(rt);
    let round = exchange(rt, &mut *cell, node, cluster.nodes.len(), &mut changes);
    if replies == Replies::AreTold {
        node.shared.ring_for_replies(&cell);
    }
    drop(cell);
    if round.is_unfinished() {
        node.shared.ring_for_mail();
    }
    round.called
}

// Has another node take what has come to it and send what it answers, unless it is locked. The node of that number isn't told of messages
// for it: whoever asks for this looks for them.
fn try_exchange<C: HasLinks<R> + Drop, R: Clock + Wait>(
    rt: &R,
    alloc: Global,
    cluster: &SharedCluster<C>,
    number: usize,
    other: usize,
    node: &Node<C>,
) -> bool {
    let Some(mut cell) = node.shared.try_lock() else {
        return false;
    };
    let mut changes = Changes::new(alloc, cluster.witness(), other);
    let round = exchange(rt, &mut *cell, node, cluster.nodes.len(), &mut changes);
    node.shared.ring_for_replies(&cell);
    drop(cell);
    let mut called = round.called;
    let _looked_for = called.take(number);
    cluster.call(called);
    !round.is_unfinished()
}

impl<C: HoldsCell + Drop> SharedCluster<C> {
    // Tells the threads that carry these nodes' messages to look for them.
    pub(crate) fn call(&self, called: Called) {
        let mut called = called;
        for (number, node) in self.nodes.iter().enumerate() {
            if called.take(number) {
                node.shared.ring_for_mail();
            }
        }
    }
}

/// Nodes that are to look for messages, or have room for more, by their numbers.
#[derive(Clone, Copy)]
pub(crate) struct Called {
    by_number: [bool; NodeNo::COUNT],
}

impl Called {
    fn none() -> Called {
        Called {
            by_number: [false; NodeNo::COUNT],
        }
    }

    fn add(&mut self, number: usize) {
        if let Some(is_called) = self.by_number.get_mut(number) {
            *is_called = true;
        }
    }

    // Whether the node is one of these. It is none of them any more.
    fn take(&mut self, number: usize) -> bool {
        match self.by_number.get_mut(number) {
            Some(is_called) => mem::replace(is_called, false),
            None => false,
        }
    }
}

// What came of one look at all links of a node.
#[derive(Clone, Copy)]
struct Round {
    has_received: bool,
    // As many messages were taken as are taken at once, so more may have come.
    has_more: bool,
    // There was memory for the messages that wait for their links.
    are_sorted: bool,
    called: Called,
}

impl Round {
    // For how long there is nothing to do if nothing comes.
    fn rest(&self) -> Duration {
        match self.are_sorted {
            true => Duration::from_secs(LONG),
            false => Duration::from_millis(PAUSE),
        }
    }

    // Whether the thread that carries the node's messages has to look for them again.
    fn is_unfinished(&self) -> bool {
        self.has_more || !self.are_sorted
    }
}

// Takes the next messages from each node, and sends as many to each as there is room for, under one hold of the node's lock.
fn lock_and_exchange<C: HasLinks<R> + Drop, R: Clock + Wait>(
    rt: &R,
    count: usize,
    node: &Node<C>,
    changes: &mut Changes<'_>,
) -> Round {
    let mut cell = node.shared.lock(rt);
    let round = exchange(rt, &mut *cell, node, count, changes);
    node.shared.ring_for_replies(&cell);
    round
}

// The same, where the node is locked already. Whether the node is closed is asked under this hold, too: so nothing is delivered or sent any
// more once `close` has returned.
fn exchange<C: HasLinks<R> + Drop, R: Clock + Wait>(
    rt: &R,
    cell: &mut C,
    node: &Node<C>,
    count: usize,
    changes: &mut Changes<'_>,
) -> Round {
    let mut called = Called::none();
    if node.shared.is_closed() {
        return lose_each::<C, R>(cell, count, called);
    }
    // What steps have left is on its way before a replica is heard that lacks it.
    let has_sent = cell.has_sent() && send_to_all(rt, cell, count, &mut called).has_sent;
    let taking = receive_from_all(rt, cell, node, count, changes, &mut called);
    let sending = send_to_all(rt, cell, count, &mut called);
    node.shared.count_steps(taking.steps);
    let hands_over = cell.core().paused().is_some();
    node.shared
        .note_pace(cell.is_behind(), has_sent || sending.has_sent, hands_over);
    Round {
        has_received: taking.has_received,
        has_more: taking.has_more,
        are_sorted: sending.are_sorted,
        called,
    }
}

// Takes the next message from each node off its link to one that is closed, and loses it. If the links were left to fill up, the
// others would keep all that they send there, and their clients would wait.
fn lose_each<C: HasLinks<R> + Drop, R: Wait>(cell: &mut C, count: usize, called: Called) -> Round {
    let mut called = called;
    let mut has_received = false;
    for number in 0..count {
        if cell.lose_from(number) {
            has_received = true;
            note_room(cell, number, &mut called);
        }
    }
    Round {
        has_received,
        has_more: has_received,
        are_sorted: true,
        called,
    }
}

// What came of one look at the messages that have come.
#[derive(Clone, Copy)]
struct Taking {
    // When it began. Without a clock it isn't known.
    begun: Option<Instant>,
    has_received: bool,
    // How many steps the node has made for them.
    steps: u64,
    // As many were taken as are taken at once, so more may have come.
    has_more: bool,
}

impl Taking {
    fn begin<R: Clock>(rt: &R) -> Taking {
        Taking {
            begun: Instant::now(rt).ok(),
            has_received: false,
            steps: 0,
            has_more: false,
        }
    }

    // Notes a message that was taken.
    fn note(&mut self, taken: Taken) {
        self.has_received = true;
        if taken == Taken::Step {
            self.steps = self.steps.saturating_add(1);
        }
    }

    // Whether it has taken long. Without a clock it hasn't.
    fn is_long<R: Clock>(&self, rt: &R) -> bool {
        let Some(passed) = self.begun.and_then(|begun| begun.elapsed(rt).ok()) else {
            return false;
        };
        passed >= Duration::from_micros(LONG_HOLD)
    }
}

// Takes the next messages from each node, until that has taken long. The next time the node behind the last one is the first.
fn receive_from_all<C: HasLinks<R> + Drop, R: Clock + Wait>(
    rt: &R,
    cell: &mut C,
    node: &Node<C>,
    count: usize,
    changes: &mut Changes<'_>,
    called: &mut Called,
) -> Taking {
    let first = node.first_sender().min(count);
    let mut taking = Taking::begin(rt);
    for number in first..count {
        if !receive_all(rt, cell, number, &mut taking, changes, called) {
            node.note_first_sender(number + 1);
            return taking;
        }
    }
    for number in 0..first {
        if !receive_all(rt, cell, number, &mut taking, changes, called) {
            node.note_first_sender(number + 1);
            return taking;
        }
    }
    taking
}

// Takes the next messages from the other node, and says whether there is time for those of others.
fn receive_all<C: HasLinks<R> + Drop, R: Clock + Wait>(
    rt: &R,
    cell: &mut C,
    number: usize,
    taking: &mut Taking,
    changes: &mut Changes<'_>,
    called: &mut Called,
) -> bool {
    for taken in 0..MOST_TAKEN {
        if taken % MESSAGES_A_READING == MESSAGES_A_READING - 1 && taking.is_long(rt) {
            taking.has_more = true;
            return false;
        }
        if !receive_from(rt, cell, number, taking, changes, called) {
            return true;
        }
    }
    taking.has_more = true;
    !taking.is_long(rt)
}

// Takes the next message from the other node, and says whether there was one.
fn receive_from<C: HasLinks<R> + Drop, R: Clock + Wait>(
    rt: &R,
    cell: &mut C,
    number: usize,
    taking: &mut Taking,
    changes: &mut Changes<'_>,
    called: &mut Called,
) -> bool {
    changes.look(&*cell);
    let taken = cell.take_from(number);
    changes.tell_acts(rt, cell, number);
    if taken == Taken::Nothing {
        return false;
    }
    taking.note(taken);
    changes.tell(rt, &*cell);
    note_room(cell, number, called);
    true
}

// Notes the other node, of which a message was taken off its link, if the link has room again for many by that.
fn note_room<C: HasLinks<R> + Drop, R: Wait>(cell: &mut C, number: usize, called: &mut Called) {
    if cell.is_half_full(number) {
        called.add(number);
    }
}

// What came of one look at the messages that are to be sent.
#[derive(Clone, Copy)]
struct Sending {
    has_sent: bool,
    // There was memory for those that wait for their links.
    are_sorted: bool,
}

// Sends messages to each node, as far as there is room.
fn send_to_all<C: HasLinks<R> + Drop, R: Wait>(
    rt: &R,
    cell: &mut C,
    count: usize,
    called: &mut Called,
) -> Sending {
    let mut sending = Sending {
        has_sent: false,
        are_sorted: true,
    };
    for number in 0..count {
        match cell.send_out(rt, number) {
            Ok(false) => {}
            Ok(true) => {
                sending.has_sent = true;
                called.add(number);
            }
            // Some may have been sent all the same.
            Err(_) => {
                sending = Sending {
                    has_sent: true,
                    are_sorted: false,
                };
                called.add(number);
            }
        }
    }
    sending
}
