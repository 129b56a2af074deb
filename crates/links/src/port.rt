//! A node's end of its link with another node, with the messages that found no room there yet.
ghost use Rattle.std.specs.Prelude.{◌≡◌, true, false, IfNone, IfSome, IsTrue, OnErr, OnOk};
ghost use Rattle.links.specs.Pace.{are_many};
ghost use Rattle.links.specs.Syncs.{is_sync};
ghost use Rattle.links.specs.Ports.{HasGiven, HasGivenNone, HasMore, HasSent, HasSentNone, HasSentOne};
ghost use Rattle.links.specs.Stations.{end_of, port_of};

use crate::pace::are_many;
use crate::sync_filter::{Progress, SyncFilter};
use bus::{Body, StreamBody};
use link_ends::{Act, LinkEnd, PortEnd};
use node_cell::{Deployment, Posted, Sending};
use std::alloc::{AllocError, Global};
use std::collections::VecDeque;
use std::marker::Model;

/// A node's end of its link with another node, and its messages for that node that found no room on the link yet.
pub(crate) struct Port<K: Deployment, E: PortEnd<Carried = Posted<K>>> {
    end: E,
    waiting: VecDeque<Posted<K>>,
    // How many messages were sent.
    sent: u64,
    // Of the syncs of the other node, if it is a replica of this one.
    filter: SyncFilter,
}

impl<K: Deployment, E: PortEnd<Carried = Posted<K>>> Model for Port<K, E> {
    ghost use Rattle.links.specs.Ports.{PortView};

    ghost Value = { PortView };

    ghost view = { λ port. let giving = E.giving port.end in record { to = giving.end.to; from = giving.end.from; sent = giving.end.sent; received = giving.end.received; given = giving.given; waiting = port.waiting.items } };
}

impl<K: Deployment, E: PortEnd<Carried = Posted<K>>> Drop for Port<K, E> {
    fn drop(self) {
        let Port {
            end: _,
            waiting: _,
            sent: _,
            filter: _,
        } = self;
    }
}

impl<K: Deployment, E: PortEnd<Carried = Posted<K>>> Port<K, E> {
    /// The port at this end. Nothing waits there.
    pub(crate) fn new(alloc: Global, end: E) -> Port<K, E>
        ensures { result ≡ port_of (E.giving end) }
    {
        Port {
            end,
            waiting: VecDeque::new(alloc),
            sent: 0,
            filter: SyncFilter::Fresh,
        }
    }

    /// Takes the first of these messages, and puts it behind those that wait.
    pub(crate) fn take_from(&mut self, sending: &mut Sending<K>) -> Result<(), AllocError>
        ensures ok { OnOk result (HasMore self.old sending.old self.new sending.new) }
        ensures err { OnErr result ((self.new ≡ self.old) × (sending.new ≡ sending.old)) }
    {
        self.waiting.reserve(1)?;
        if let Some(posted) = sending.next() {
            let Ok(()) = self.waiting.push_back(posted) else {
                unreachable!();
            };
        }
        Ok(())
    }

    /// Sends as many of the messages that wait as the link has room for, and says whether there was one. No message that steps have left for
    /// the other node is elsewhere then.
    pub(crate) fn send_all(&mut self) -> bool
        ensures sent { HasSent self.old self.new }
        ensures none { result ≡ false → self.new ≡ self.old }
    {
        let posted = self.posted();
        self.filter.note_posted(posted);
        let mut has_sent = false;
        for _ in 0..self.waiting.len() {
            if !self.send_first() {
                return has_sent;
            }
            has_sent = true;
        }
        has_sent
    }

    // Sends the first message that waits, if there is one and the link has room.
    fn send_first(&mut self) -> bool
        ensures sent { result ≡ true → HasSentOne self.old self.new }
        ensures unsent { result ≡ false → HasSentNone self.old self.new }
    {
        let Some(posted) = self.waiting.pop_front() else {
            return false;
        };
        match self.end.post(posted) {
            Ok(()) => {
                self.sent = self.sent.saturating_add(1);
                true
            }
            Err(posted) => {
                let Ok(()) = self.waiting.push_front(posted) else {
                    unreachable!();
                };
                false
            }
        }
    }

    /// The next message from the other node, if there is one to be given.
    pub(crate) fn try_receive(&mut self) -> Option<Posted<K>>
        ensures given { IfSome result (λ posted. HasGiven self.old posted self.new) }
        ensures none { IfNone result (HasGivenNone self.old self.new) }
    {
        let posted = self.end.receive()?;
        Some(posted)
    }

    /// Whether the message, which came from the other node, is a sync that needs no answer.
    pub(crate) fn is_needless(&mut self, posted: &Posted<K>) -> bool
        ensures port { self.new ≡ self.old }
        ensures sync { result ≡ true → IsTrue (is_sync posted.now.body) }
    {
        match &posted.message().body {
            Body::Stream(StreamBody::Sync(sync)) => {
                let progress = self.progress();
                !self.filter.needs_answer(sync, &progress)
            }
            _ => false,
        }
    }

    // How far the messages for the other node have come.
    fn progress(&mut self) -> Progress
        ensures { self.new ≡ self.old }
    {
        let on_the_way = self.end.on_the_way() as u64;
        Progress {
            posted: self.posted(),
            taken: self.sent.saturating_sub(on_the_way),
        }
    }

    // How many messages there were for the other node.
    fn posted(&self) -> u64 {
        self.sent.saturating_add(self.waiting.len() as u64)
    }

    /// Whether the link from the other node is half full.
    pub(crate) fn is_half_full(&mut self) -> bool
        ensures { self.new ≡ self.old }
    {
        self.end.is_half_full()
    }

    /// The next act that a bad network did to a message from the other node and that wasn't told yet.
    pub(crate) fn tell_act(&mut self) -> Option<Act>
        ensures { self.new ≡ self.old }
    {
        self.end.tell_act()
    }

    /// Whether more messages wait than should.
    pub(crate) fn is_behind(&self) -> bool
        ensures { result ≡ are_many self.now.waiting }
    {
        are_many(&self.waiting)
    }

    /// The end.
    pub(crate) fn into_end(self) -> LinkEnd<Posted<K>, E::Handle>
        ensures { result ≡ end_of self }
    {
        let Port {
            end,
            waiting: _,
            sent: _,
            filter: _,
        } = self;
        end.into_end()
    }
}
