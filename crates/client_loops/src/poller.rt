//! What tells a thread which of its clients are ready.

use mio::unix::SourceFd;
use mio::{Events, Interest, Poll, Token, Waker};
use std::alloc::{AllocError, Global};
use std::io;
use std::net::{Net, TcpStream};
use std::os::fd::{AsRawFd, RawFd};

// How many bytes are read at most from a client in its turn. All clients are read into the same room.
const READ_SIZE: usize = 65_536;

// Of how many clients the system tells at most before those have their turn.
const MOST_EVENTS: usize = 256;

/// By this the system tells that the thread was woken. No client has it as its number.
pub(crate) const CALL: Token = Token(usize::MAX);

/// Tells a thread which of its clients are ready, and has the room into which they are read. It is made before the thread is started.
pub struct Poller {
    pub(crate) poll: Poll,
    pub(crate) events: Events,
    pub(crate) input: Vec<u8>,
}

// It does what the derive would. Written out it is one call wherever a poller is let go.
impl Drop for Poller {
    fn drop(self) {
        let Poller {
            poll: _,
            events: _,
            input: _,
        } = self;
    }
}

/// What there is none of for a poller.
#[derive(Clone, Copy, PartialEq, Eq, Debug)]
pub enum PollerFault {
    /// Memory was refused.
    Memory,
    /// The system gives no descriptor.
    Descriptor,
}

impl From<AllocError> for PollerFault {
    fn from(_refused: AllocError) -> PollerFault {
        PollerFault::Memory
    }
}

impl Poller {
    /// One that no client is registered with. It takes memory, and descriptors of the system.
    pub fn new<R: Net>(rt: &R, alloc: Global) -> Result<Poller, PollerFault> {
        let events = Events::with_capacity(alloc, MOST_EVENTS)?;
        let input = vec![in alloc; 0u8; READ_SIZE]?;
        let Ok(poll) = Poll::new(rt) else {
            return Err(PollerFault::Descriptor);
        };
        Ok(Poller {
            poll,
            events,
            input,
        })
    }

    // Has the system tell of this client by that key.
    pub(crate) fn register(&self, stream: &TcpStream, key: usize) -> io::Result<()> {
        let fd = stream.as_raw_fd();
        let both = Interest::READABLE | Interest::WRITABLE;
        let registry = self.poll.registry();
        registry.register(&mut SourceFd(&fd), Token(key), both)
    }

    // Has the system tell of this client no more.
    pub(crate) fn deregister(&self, fd: RawFd) {
        let _told = self.poll.registry().deregister(&mut SourceFd(&fd));
    }

    /// What wakes the thread.
    pub fn waker(&self) -> Result<Waker, PollerFault> {
        match Waker::new(self.poll.registry(), CALL) {
            Ok(waker) => Ok(waker),
            Err(_) => Err(PollerFault::Descriptor),
        }
    }
}
