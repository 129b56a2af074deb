//! Connections to nodes, on sockets.
ghost use Rattle.std.specs.Prelude.{◌≡◌};

use crate::runtime::ToolRuntime;
use crate::shown::Shown;
use crate::target::look_for_target;
use crate::telling::Place;
use crate::waiting::tell_wait;
use crate::watched::Seen;
use redirection::Address;
use smart_client::{Connect, ConnectFault, Reaches};
use std::alloc::{AllocError, Global};
use std::cell::RefCell;
use std::io;
use std::io::{ErrorKind, Read, Write};
use std::net::{Net, TcpListener, TcpStream};
use std::snapshot::Snapshot;
use std::time::Duration;

// How many milliseconds a read waits before the run checks what it waits for.
const TURN: u64 = 500;

/// A sentence for a text that is no address.
pub fn no_address(alloc: Global, text: &str) -> Result<String, AllocError> {
    format!(in alloc;
        "\"{}\" is no address: --addr takes HOST:PORT, with a host without a colon and a port from 1 to 65535",
        Shown(text.as_bytes())
    )
}

/// An end of a connection to a node. It fails, too, where the node is asked to move a key to a node that refuses connections.
///
/// No contract says which node a socket reaches. So the address stands here, for proofs alone: it is the one that the socket
/// was connected to.
pub struct End<'a, R: Drop> {
    stream: TcpStream,
    address: Snapshot<Address>,
    rt: R,
    seen: &'a RefCell<Seen>,
}

impl<R: Drop> Drop for End<'_, R> {
    fn drop(self) {
        let End {
            stream: _,
            address: _,
            rt: _,
            seen: _,
        } = self;
    }
}

impl<'a, R: ToolRuntime> End<'a, R> {
    fn new(stream: TcpStream, address: &Address, rt: R, seen: &'a RefCell<Seen>) -> End<'a, R>
        ensures { result.address.value ≡ address.now }
    {
        End {
            stream,
            address: Snapshot::of(address),
            rt,
            seen,
        }
    }

    // Nothing has come for a while.
    fn wait(&self) -> io::Result<()> {
        if tell_wait(&self.rt, self.seen) {
            look_for_target(&self.rt, self.seen)?;
        }
        Ok(())
    }

    // Whether the target of a move is in doubt.
    fn doubts_target(&self) -> bool {
        match self.seen.try_borrow() {
            Ok(seen) => seen.doubts_target(),
            Err(_) => false,
        }
    }
}

impl<R: Drop> Reaches for End<'_, R> {
    ghost place = { λ end. end.address.value };
}

impl<R: ToolRuntime> Read for End<'_, R> {
    fn read(&mut self, buf: &mut [u8]) -> io::Result<usize> {
        // A loop has to end, so this one counts its turns.
        for _ in 0..u64::MAX {
            match self.stream.read(buf) {
                Err(error) if error.kind() == ErrorKind::WouldBlock => self.wait()?,
                read => return read,
            }
        }
        Err(io::Error::from(ErrorKind::TimedOut))
    }
}

impl<R: ToolRuntime> Write for End<'_, R> {
    fn write(&mut self, buf: &[u8]) -> io::Result<usize> {
        if self.doubts_target() {
            look_for_target(&self.rt, self.seen)?;
        }
        self.stream.write(buf)
    }

    fn flush(&mut self) -> io::Result<()> {
        self.stream.flush()
    }
}

/// Makes connections to nodes, on sockets. Why one isn't made is seen.
pub struct Sockets<'a, R: Drop> {
    rt: R,
    seen: &'a RefCell<Seen>,
    // How often no node was reached.
    failures: u64,
}

impl<R: Drop> Drop for Sockets<'_, R> {
    fn drop(self) {
        let Sockets {
            rt: _,
            seen: _,
            failures: _,
        } = self;
    }
}

impl<'a, R: Drop> Sockets<'a, R> {
    /// Connections that this runtime makes.
    pub fn new(rt: R, seen: &'a RefCell<Seen>) -> Sockets<'a, R> {
        Sockets {
            rt,
            seen,
            failures: 0,
        }
    }
}

impl<'a, R: ToolRuntime> Connect for Sockets<'a, R> {
    type Reader = End<'a, R>;

    type Writer = End<'a, R>;

    ghost failures = { λ sockets. sockets.failures };

    fn connect(&mut self, address: &Address) -> Result<(End<'a, R>, End<'a, R>), ConnectFault> {
        let text = format!(in self.rt.alloc(); "{}", Place(address))?;
        match streams_to(&self.rt, text.as_str()) {
            Ok((reader, writer)) => Ok((
                End::new(reader, address, self.rt, self.seen),
                End::new(writer, address, self.rt, self.seen),
            )),
            Err(error) => {
                see_error(self.seen, &error);
                self.failures = self.failures.saturating_add(1);
                Err(ConnectFault::NotReached)
            }
        }
    }
}

// Where it can't be seen now, the sentence is the shorter one.
fn see_error(seen: &RefCell<Seen>, error: &io::Error) {
    if let Ok(mut seen) = seen.try_borrow_mut() {
        seen.see_error(error);
    }
}

// A stream to read from, and the same one to write to.
fn streams_to<R>(rt: &R, address: &str) -> io::Result<(TcpStream, TcpStream)>
where
    R: Net<Listener = TcpListener, Stream = TcpStream>,
{
    let writer = TcpStream::connect(rt, address)?;
    // A request is one write, so nothing is gained by waiting for more.
    let _nodelay = writer.set_nodelay(true);
    // Where that can't be set, a wait isn't told.
    let _turn = writer.set_read_timeout(Some(Duration::from_millis(TURN)));
    let reader = writer.try_clone()?;
    Ok((reader, writer))
}
