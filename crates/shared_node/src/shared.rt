//! A node that several threads share.

use mio::Waker;
use node_cell::HoldsCell;
use std::sync::atomic::{AtomicBool, AtomicU64, Ordering};
use std::sync::{Condvar, Mutex, MutexGuard, OnceLock, Wait};
use std::thread;
use std::time::Duration;

// How many steps may be made while messages wait to be taken from the node, before clients' threads wait.
const MOST_STEPS_AHEAD: u64 = 4096;

// How many milliseconds a client's thread waits at most before its next step, where its node's messages wait in too great numbers.
const PACE: u64 = 10;

// And where none of them can be sent, because the node that they are for takes none.
const LONG_PACE: u64 = 100;

// And where the node hands its slots over: whatever a client asks for meanwhile it is to ask for again.
const HANDOVER_PACE: u64 = 2;

// How often a thread lets others run before it counts as one that waits long. Newcomers don't try to lock the node while there are
// such threads, so that these come first.
const FEW_YIELDS: u32 = 5;

// How often a thread lets others run before it sleeps until the node's lock is free. The lock is held for some microseconds, and
// to sleep and to be woken takes longer than that.
const MOST_YIELDS: u32 = 500;

/// A node behind its lock, whose cell is in a `C`, with the bells that ring for those who wait there.
pub struct SharedNode<C: HoldsCell> {
    cell: Mutex<C>,
    // How many threads wait long for the lock.
    pressed: AtomicU64,
    // How often a thread has slept until the lock was free.
    sleeps: AtomicU64,
    // It rings where replies are kept for connections that wait.
    replies: Condvar,
    // It rings where messages are to be sent, or may have come.
    mail: Condvar,
    // It rings where messages that waited were sent.
    sent: Condvar,
    // They wake the loops that serve the node's clients, if it has loops. A loop waits for sockets, and not for a bell.
    wakers: OnceLock<Vec<Waker>>,
    // How many steps were made while messages waited to be taken from the node.
    steps: AtomicU64,
    // How many steps the node has made. Whoever has the lock counts them.
    all_steps: AtomicU64,
    // Clients' threads are to wait: those that were taken wait for their links in too great numbers, or the node hands over.
    is_slowed: AtomicBool,
    // None of these messages was sent as they were last looked at.
    are_stuck: AtomicBool,
    // The node hands its slots over.
    hands_over: AtomicBool,
    // Once it is closed, nobody waits here for a reply any more.
    is_closed: AtomicBool,
}

impl<C: HoldsCell + Drop> Drop for SharedNode<C> {
    fn drop(self) {
        let SharedNode {
            cell: _,
            pressed: _,
            sleeps: _,
            replies: _,
            mail: _,
            sent: _,
            wakers: _,
            steps: _,
            all_steps: _,
            is_slowed: _,
            are_stuck: _,
            hands_over: _,
            is_closed: _,
        } = self;
    }
}

impl<C: HoldsCell + Drop> SharedNode<C> {
    /// The node with this cell.
    pub fn new(cell: C) -> SharedNode<C> {
        SharedNode {
            cell: Mutex::new(cell),
            pressed: AtomicU64::new(0),
            sleeps: AtomicU64::new(0),
            replies: Condvar::new(),
            mail: Condvar::new(),
            sent: Condvar::new(),
            wakers: OnceLock::new(),
            steps: AtomicU64::new(0),
            all_steps: AtomicU64::new(0),
            is_slowed: AtomicBool::new(false),
            are_stuck: AtomicBool::new(false),
            hands_over: AtomicBool::new(false),
            is_closed: AtomicBool::new(false),
        }
    }

    /// The cell, once nobody shares the node any more.
    pub fn into_cell(self) -> C {
        let SharedNode {
            cell,
            pressed: _,
            sleeps: _,
            replies: _,
            mail: _,
            sent: _,
            wakers: _,
            steps: _,
            all_steps: _,
            is_slowed: _,
            are_stuck: _,
            hands_over: _,
            is_closed: _,
        } = self;
        cell.into_inner()
    }

    /// Has these wake the loops that serve the node's clients, by the loops' numbers. Further ones are dropped.
    pub fn set_wakers<R: Wait>(&self, rt: &R, wakers: Vec<Waker>) {
        let _set = self.wakers.set(rt, wakers);
    }

    /// Wakes the loop of that number.
    pub fn wake(&self, number: usize) {
        if let Some(waker) = self.wakers().get(number) {
            let _woken = waker.wake();
        }
    }

    fn wake_all(&self) {
        for waker in self.wakers() {
            let _woken = waker.wake();
        }
    }

    fn wakers(&self) -> &[Waker] {
        match self.wakers.get() {
            Some(wakers) => wakers.as_slice(),
            None => &[],
        }
    }

    /// Locks the node.
    pub fn lock<R: Wait>(&self, rt: &R) -> MutexGuard<'_, C> {
        for _ in 0..FEW_YIELDS {
            if let Some(cell) = self.try_lock() {
                return cell;
            }
            thread::yield_now();
        }
        self.pressed.fetch_add(1, Ordering::SeqCst);
        let cell = self.lock_first(rt);
        self.pressed.fetch_sub(1, Ordering::SeqCst);
        cell
    }

    // Locks the node for a thread that has waited long.
    fn lock_first<R: Wait>(&self, rt: &R) -> MutexGuard<'_, C> {
        for _ in FEW_YIELDS..MOST_YIELDS {
            if let Some(cell) = self.cell.try_lock() {
                return cell;
            }
            thread::yield_now();
        }
        self.sleeps.fetch_add(1, Ordering::Relaxed);
        self.cell.lock(rt)
    }

    /// How often a thread has waited so long for the node's lock that it slept.
    pub fn sleeps(&self) -> u64 {
        self.sleeps.load(Ordering::Relaxed)
    }

    /// Locks the node, if nobody has it or has waited long for it.
    pub fn try_lock(&self) -> Option<MutexGuard<'_, C>> {
        match self.is_pressed() {
            true => None,
            false => self.cell.try_lock(),
        }
    }

    /// Whether threads have waited long for the node's lock.
    pub fn is_pressed(&self) -> bool {
        self.pressed.load(Ordering::SeqCst) > 0
    }

    /// Counts steps that the node has made. Whoever calls this has the node's lock, so nobody else counts meanwhile.
    #[inline(always)]
    pub fn count_steps(&self, count: u64) {
        let steps = self.all_steps.load(Ordering::Relaxed);
        self.all_steps
            .store(steps.wrapping_add(count), Ordering::Relaxed);
    }

    // Counts a step, if this is the answer of one.
    #[inline(always)]
    pub(crate) fn count_answer<A, F>(&self, answer: &Result<A, F>) {
        if answer.is_ok() {
            self.count_steps(1);
        }
    }

    /// How many steps the node has made.
    pub fn all_steps(&self) -> u64 {
        self.all_steps.load(Ordering::Relaxed)
    }

    // Notes that the last step left messages, if it did, and says whether the thread that takes them is to be told. Who was told before,
    // and hasn't taken the messages of that step yet, takes these with them.
    pub(crate) fn note_sent(&self, cell: &C) -> bool {
        cell.has_sent() && self.steps.fetch_add(1, Ordering::SeqCst) == 0
    }

    /// Tells the conversations that wait of the replies that are kept in the cell, if there are any.
    pub fn ring_for_replies(&self, cell: &C) {
        if cell.has_undelivered() {
            self.replies.notify_all();
            self.wake_all();
        }
    }

    /// Tells clients' threads that the node's messages were taken, whether those that wait for their links are too many, whether some
    /// were sent, and whether the node hands its slots over.
    pub fn note_pace(&self, are_many: bool, has_sent: bool, hands_over: bool) {
        let was_slowed = self.is_slowed();
        self.steps.store(0, Ordering::SeqCst);
        self.is_slowed
            .store(are_many || hands_over, Ordering::SeqCst);
        self.are_stuck
            .store(are_many && !has_sent, Ordering::SeqCst);
        self.hands_over.store(hands_over, Ordering::SeqCst);
        if was_slowed && has_sent {
            self.sent.notify_all();
        }
    }

    // Whether clients' threads are to wait before their next step.
    fn is_slowed(&self) -> bool {
        self.is_slowed.load(Ordering::SeqCst)
            || self.steps.load(Ordering::SeqCst) > MOST_STEPS_AHEAD
    }

    /// Waits where messages wait in too great numbers, until some were sent, or where the node hands over, but for some milliseconds at
    /// most.
    pub(crate) fn keep_pace<R: Wait>(&self, rt: &R) {
        let seen = self.sent.notifications();
        if self.is_slowed() {
            self.sent.sleep(rt, seen, self.pace());
        }
    }

    // For how long a client's thread waits at most.
    fn pace(&self) -> Duration {
        Duration::from_millis(if self.are_stuck.load(Ordering::SeqCst) {
            LONG_PACE
        } else if self.hands_over.load(Ordering::SeqCst) {
            HANDOVER_PACE
        } else {
            PACE
        })
    }

    /// Lets others in until replies are kept there, and then locks the node again.
    pub(crate) fn wait_for_replies<'n, R: Wait>(
        &self,
        rt: &R,
        cell: MutexGuard<'n, C>,
    ) -> MutexGuard<'n, C> {
        self.replies.wait(rt, cell)
    }

    /// Tells the thread that carries the node's messages to look for them.
    pub fn ring_for_mail(&self) {
        self.mail.notify_all();
    }

    /// How often that thread was told.
    pub fn mail_rings(&self) -> u64 {
        self.mail.notifications()
    }

    /// Sleeps until that thread was told more often than `seen`, but for no longer than this time.
    pub fn wait_for_mail<R: Wait>(&self, rt: &R, seen: u64, time: Duration) {
        self.mail.sleep(rt, seen, time);
    }

    /// Ends all waits for replies, and those that would begin.
    pub fn close<R: Wait>(&self, rt: &R) {
        self.is_closed.store(true, Ordering::SeqCst);
        // Taking the lock once waits for any thread that saw the old flag: it sleeps by now and hears the bell, or has left.
        drop(self.cell.lock(rt));
        self.replies.notify_all();
        self.mail.notify_all();
        self.wake_all();
    }

    /// Whether the waits are ended.
    pub fn is_closed(&self) -> bool {
        self.is_closed.load(Ordering::SeqCst)
    }
}
