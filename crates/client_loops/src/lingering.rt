//! A client that was told by a line why its conversation ended, and is still read for a moment.

use listener::{ConnFault, Rest};
use std::net::{Shutdown, TcpStream};
use std::rt::Clock;
use std::time::{Duration, Instant};

// How many bytes of a client are read at most: twice those of the longest request.
const MOST_BYTES: usize = 33_554_432;

// How many seconds a client is read at most. To send a request of 15 MiB takes as long at 25 million bits a second.
const LONGEST: u64 = 5;

/// Whether the last that a client reads is a line that tells it why the conversation ended.
pub fn is_told(ended: Result<Rest, ConnFault>) -> bool {
    match ended {
        Ok(Rest::BadByte) | Err(ConnFault::Memory | ConnFault::Exhausted) => true,
        Ok(Rest::Unfinished) => false,
        Err(ConnFault::Reader | ConnFault::Writer | ConnFault::Unanswered | ConnFault::Endless) =>
            false,
    }
}

/// For how long a client is still read that was told why its conversation ended, and how much of it. What it sends is forgotten.
///
/// If its connection were closed while bytes of it were unread, the system would reset it at the client, which may still be sending and would then
/// fail before it reads the line.
#[derive(Clone, Copy)]
pub struct Lingering {
    begun: Instant,
    // How many bytes may still be read.
    left: usize,
}

impl Lingering {
    /// From now on. The client of the stream sees that nothing more comes. There is None where the system can't tell it that, or has no clock.
    pub fn begin<R: Clock>(rt: &R, stream: &TcpStream) -> Option<Lingering> {
        stream.shutdown(Shutdown::Write).ok()?;
        let begun = Instant::now(rt).ok()?;
        Some(Lingering {
            begun,
            left: MOST_BYTES,
        })
    }

    /// How much time is left, if there is any.
    pub fn time_left<R: Clock>(&self, rt: &R) -> Option<Duration> {
        let passed = self.begun.elapsed(rt).ok()?;
        let left = Duration::from_secs(LONGEST).saturating_sub(passed);
        match left.is_zero() {
            true => None,
            false => Some(left),
        }
    }

    /// Notes that this many bytes were read, and says whether more may be.
    pub fn note_read(&mut self, count: usize) -> bool {
        self.left = self.left.saturating_sub(count);
        self.left > 0
    }
}
