//! A way to the nodes on which is seen what was asked last, of which node, and what came of it.

use crate::shown::{Shown, ShownWords};
use crate::telling::Place;
use crate::waiting::Waiting;
use byte_string::ByteString;
use redirection::Address;
use resp2::{Array, Element, Reply, Words};
use smart_client::{Action, Event, Network};
use std::alloc::Global;
use std::cell::RefCell;
use std::fmt::{Display, Write};
use std::io;

// How many masters a cluster has at most.
const MOST_MASTERS: usize = 16;

/// What was asked last, and what was seen since the beginning. What there was no memory for is empty.
pub struct Seen {
    /// The address of the node in use.
    pub(crate) place: String,
    /// The words that were sent to it last, or nothing where none were.
    pub(crate) request: String,
    /// Whether these are the command of a call, and no order that prepares the node for it.
    pub(crate) has_sent_command: bool,
    /// What it answered, or nothing where no answer came.
    pub(crate) answer: String,
    /// Why it can't be reached, as the system says it, or nothing where it says nothing.
    pub(crate) error: String,
    /// How many slots were asked to come to another node.
    pub imports: u64,
    /// The ids of the masters that CLUSTER SLOTS listed.
    pub(crate) masters: Vec<ByteString>,
    /// The address of the node to which the one in use was asked to move keys, or nothing where it was asked something else.
    pub(crate) target: String,
    /// Whether that node refuses connections.
    pub(crate) has_lost_target: bool,
    /// How long the run has waited for the same.
    pub(crate) waiting: Waiting,
    /// How many refusals came one after another.
    pub(crate) refusals: u64,
    // Whether CLUSTER SLOTS was asked last.
    lists_masters: bool,
    // Whether the last reply was that keys which were to be moved aren't acknowledged by the target.
    lacks_acknowledgement: bool,
}

// It does what the derive would. Written out it is one call wherever what was seen is let go.
impl Drop for Seen {
    fn drop(self) {
        let Seen {
            place: _place,
            request: _request,
            has_sent_command: _has_sent_command,
            answer: _answer,
            error: _error,
            imports: _imports,
            masters: _masters,
            target: _target,
            has_lost_target: _has_lost_target,
            waiting: _waiting,
            refusals: _refusals,
            lists_masters: _lists_masters,
            lacks_acknowledgement: _lacks_acknowledgement,
        } = self;
    }
}

impl Seen {
    /// Nothing yet, by a tool that waits so.
    pub fn new(alloc: Global, waiting: Waiting) -> RefCell<Seen> {
        RefCell::new(Seen {
            place: String::new(alloc),
            request: String::new(alloc),
            has_sent_command: false,
            answer: String::new(alloc),
            error: String::new(alloc),
            imports: 0,
            masters: Vec::new(alloc),
            target: String::new(alloc),
            has_lost_target: false,
            waiting,
            refusals: 0,
            lists_masters: false,
            lacks_acknowledgement: false,
        })
    }

    fn see_action(&mut self, action: &Action) {
        self.answer.clear();
        match action {
            Action::Connect(address) => self.see_place(address),
            Action::Send(words) => self.see_request(words),
            Action::Done { .. } => {}
        }
    }

    fn see_place(&mut self, address: &Address) {
        self.request.clear();
        self.error.clear();
        note(&mut self.place, Place(address));
    }

    fn see_request(&mut self, words: &Words) {
        let words = words.as_slice();
        note(&mut self.request, ShownWords(words));
        // These two a client sends of its own accord, before the command.
        self.has_sent_command = !is_word(words, 0, b"CLUSTER") && !is_word(words, 0, b"ASKING");
        self.lists_masters = is_word(words, 1, b"SLOTS");
        if is_word(words, 3, b"IMPORTING") {
            self.imports = self.imports.saturating_add(1);
        }
        self.see_target(words);
    }

    // `MIGRATE host port ..` names the node to which keys are to be moved.
    fn see_target(&mut self, words: &[ByteString]) {
        self.target.clear();
        if is_word(words, 0, b"MIGRATE")
            && let [_, host, port, ..] = words
        {
            note(
                &mut self.target,
                format_args!("{}:{}", Shown(host.as_slice()), Shown(port.as_slice())),
            );
        }
    }

    /// Sees that the target refuses connections.
    pub(crate) fn see_no_target(&mut self, error: &io::Error) {
        self.has_lost_target = true;
        self.see_error(error);
    }

    /// Whether keys are to be moved whose last copy the target didn't acknowledge.
    pub(crate) fn doubts_target(&self) -> bool {
        self.lacks_acknowledgement && !self.target.is_empty()
    }

    /// Sees why the node can't be reached.
    pub(crate) fn see_error(&mut self, error: &io::Error) {
        note(&mut self.error, format_args!("{error}"));
    }

    fn see_event(&mut self, event: &Event) {
        match event {
            Event::Reply(reply) => self.see_reply(reply),
            Event::BadReply => note(&mut self.answer, "bytes that are no reply"),
            Event::Call(_)
            | Event::Connected
            | Event::NotConnected
            | Event::Broken { .. }
            | Event::NoMemory { .. } => {}
        }
    }

    fn see_reply(&mut self, reply: &Reply) {
        self.lacks_acknowledgement = is_not_acknowledged(reply);
        match reply {
            Reply::Simple(text) | Reply::Error(text) => note(
                &mut self.answer,
                format_args!("\"{}\"", Shown(text.as_slice())),
            ),
            Reply::Integer(number) => note(&mut self.answer, format_args!("the number {number}")),
            Reply::Bulk(_) => note(&mut self.answer, "a string"),
            Reply::Null => note(&mut self.answer, "a string that isn't there"),
            Reply::Array(array) => {
                note(&mut self.answer, "an array");
                if self.lists_masters {
                    self.see_masters(array);
                }
            }
        }
    }

    // An entry has two strings: the host of a master, and its id behind that.
    fn see_masters(&mut self, entries: &Array) {
        let mut is_id = false;
        for element in entries.as_slice() {
            if let Element::Bulk(text) = element {
                if is_id {
                    self.see_master(text);
                }
                is_id = !is_id;
            }
        }
    }

    fn see_master(&mut self, id: &ByteString) {
        if self.masters.len() == MOST_MASTERS || self.lists(id.as_slice()) {
            return;
        }
        if let Ok(id) = id.clone() {
            let _told = self.masters.push(id);
        }
    }

    /// Whether the node in use is known.
    pub(crate) fn has_place(&self) -> bool {
        !self.place.is_empty()
    }

    /// Whether the node in use is known, and what it was asked and answered.
    pub(crate) fn has_answer(&self) -> bool {
        self.has_place() && !self.request.is_empty() && !self.answer.is_empty()
    }

    /// Whether CLUSTER SLOTS listed a master of this id.
    pub(crate) fn lists(&self, id: &[u8]) -> bool {
        self.masters.iter().any(|master| master.as_slice() == id)
    }
}

fn is_not_acknowledged(reply: &Reply) -> bool {
    match reply {
        Reply::Error(text) => text.as_slice().starts_with(b"IOERR"),
        _ => false,
    }
}

// Whether the word at that place is this one.
fn is_word(words: &[ByteString], place: usize, wanted: &[u8]) -> bool {
    words
        .get(place)
        .is_some_and(|word| word.as_slice() == wanted)
}

// Keeps the text, or nothing where there is no memory for it.
fn note<D: Display + Drop>(noted: &mut String, text: D) {
    noted.clear();
    if write!(noted, "{text}").is_err() {
        noted.clear();
    }
}

/// A way to the nodes of which all is seen.
pub struct Watched<'a, N: Network + Drop> {
    network: N,
    seen: &'a RefCell<Seen>,
}

impl<N: Network + Drop> Drop for Watched<'_, N> {
    fn drop(self) {
        let Watched {
            network: _,
            seen: _,
        } = self;
    }
}

impl<'a, N: Network + Drop> Watched<'a, N> {
    /// The same way, on which all is seen from now on.
    pub fn new(network: N, seen: &'a RefCell<Seen>) -> Watched<'a, N> {
        Watched { network, seen }
    }
}

impl<N: Network + Drop> Network for Watched<'_, N> {
    ghost deeds = { λ watched. N.deeds watched.network };

    ghost pool = { λ watched. N.pool watched.network };

    ghost wires = { λ watched. N.wires watched.network };

    fn perform(&mut self, action: Action) -> Event {
        if let Ok(mut seen) = self.seen.try_borrow_mut() {
            seen.see_action(&action);
        }
        let event = self.network.perform(action);
        if let Ok(mut seen) = self.seen.try_borrow_mut() {
            seen.see_event(&event);
        }
        event
    }

    fn close(&mut self) {
        self.network.close();
    }
}
