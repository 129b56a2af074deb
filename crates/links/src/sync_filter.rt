//! Which syncs of a replica its master has to answer.

use bus::Sync;

/// How far the messages have come that a node has for another one.
#[derive(Clone, Copy, PartialEq, Eq, Debug)]
pub(crate) struct Progress {
    /// How many there were, whether they are on the link or wait for it.
    pub posted: u64,
    /// How many of them the other node has taken.
    pub taken: u64,
}

impl Progress {
    // Whether nothing is on its way.
    fn is_idle(&self) -> bool {
        self.taken == self.posted
    }
}

/// Finds out, at a master's port, which syncs of the replica there need an answer.
///
/// A replica says at each tick how much of the stream it has, whatever is on its way to it by then. An answer to that would send it the same
/// bytes once more, or all keys where the backlog doesn't reach back so far. So a sync is answered only if the replica repeats it although it
/// has taken all messages that were on their way as it came first: what it lacks then was lost. One answer brings a part of what is missing,
/// so a sync behind it is answered, too, where the answer brought the replica further and nothing else is on its way.
#[derive(Clone, Copy, PartialEq, Eq, Debug)]
pub(crate) enum SyncFilter {
    /// No sync has come yet.
    Fresh,
    /// This sync came last, and wasn't answered. What was on its way then has arrived once so many messages are taken.
    Unanswered { sync: Sync, until: u64 },
    /// This one is being answered. The answer isn't among the messages for the replica yet.
    Answering { sync: Sync },
    /// This one was answered last. The answer has arrived once so many messages are taken.
    Answered { sync: Sync, until: u64 },
}

impl SyncFilter {
    /// Whether the sync needs an answer. If so, the answer counts as being on its way from now on.
    pub(crate) fn needs_answer(&mut self, sync: &Sync, progress: &Progress) -> bool {
        if self.is_awaiting(progress) {
            return false;
        }
        let needs = self.lacks(sync, progress);
        *self = behind(sync, progress, needs);
        needs
    }

    // Whether what was on its way as the last sync came, or its answer, hasn't arrived yet.
    fn is_awaiting(&self, progress: &Progress) -> bool {
        match self {
            SyncFilter::Fresh => false,
            SyncFilter::Answering { .. } => true,
            SyncFilter::Unanswered { until, .. } | SyncFilter::Answered { until, .. } => {
                progress.taken < *until
            }
        }
    }

    // Whether the replica may lack what isn't on its way. A sync that is the same as the one before it, behind an answer, was sent before
    // the answer arrived.
    fn lacks(&self, sync: &Sync, progress: &Progress) -> bool {
        match self {
            SyncFilter::Fresh => progress.is_idle(),
            SyncFilter::Unanswered { sync: last, .. } => last == sync,
            SyncFilter::Answering { .. } => false,
            SyncFilter::Answered { sync: last, .. } => last != sync && progress.is_idle(),
        }
    }

    /// Notes that all messages which steps have left are among those for the replica, of which there are so many.
    pub(crate) fn note_posted(&mut self, posted: u64) {
        *self = self.after_posting(posted);
    }

    fn after_posting(self, posted: u64) -> SyncFilter {
        match self {
            SyncFilter::Answering { sync } => SyncFilter::Answered {
                sync,
                until: posted,
            },
            SyncFilter::Fresh | SyncFilter::Unanswered { .. } | SyncFilter::Answered { .. } => self,
        }
    }
}

// What is known behind the sync, whether it is answered or not.
fn behind(sync: &Sync, progress: &Progress, is_answered: bool) -> SyncFilter {
    let sync = *sync;
    if is_answered {
        return SyncFilter::Answering { sync };
    }
    SyncFilter::Unanswered {
        sync,
        until: progress.posted,
    }
}
