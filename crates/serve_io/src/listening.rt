//! Where the nodes listen.

use crate::reach::host_of;
use cluster_config::NodeConfig;
use program_fault::{Failure, ProgramFault};
use std::alloc::{AllocError, Global};
use std::io;
use std::io::ErrorKind;
use std::net::{Net, SocketAddr, TcpListener, TcpStream, ToSocketAddrs};

// Where nodes without a file listen if nothing is said.
const HOST: &str = "127.0.0.1";

/// Where the nodes listen, apart from their addresses.
pub struct Doors<'a> {
    /// Listeners that are open already: the first node's, the second one's, and so on. The other nodes have none yet.
    pub open: Vec<TcpListener>,
    /// The host at which all other nodes listen, or None where each listens at its own.
    pub host: Option<&'a str>,
}

impl Drop for Doors<'_> {
    fn drop(self) {
        let Doors { open: _, host: _ } = self;
    }
}

impl Doors<'_> {
    /// The listeners that are open already.
    pub fn into_open(self) -> Vec<TcpListener> {
        let Doors { open, host: _ } = self;
        open
    }
}

/// Listens at so many free ports of that host, or of this machine alone where none is named.
pub fn listen_anywhere<R>(
    rt: &R,
    count: usize,
    host: Option<&str>,
) -> Result<Vec<TcpListener>, Failure>
where
    R: AllocGlobal + Net<Listener = TcpListener, Stream = TcpStream>,
{
    let mut listeners = Vec::with_capacity(rt.alloc(), count)?;
    let host = host.unwrap_or(HOST);
    for number in 0..count {
        let listener = listen_on(rt, host, 0).map_err(|error| in_use(
            rt.alloc(),
            number,
            host,
            0,
            &error,
        ))?;
        listeners.push(listener).map_err(AllocError::from)?;
    }
    Ok(listeners)
}

/// The ports of these listeners.
pub fn ports_of(alloc: Global, listeners: &[TcpListener]) -> Result<Vec<u16>, Failure> {
    let mut ports = Vec::with_capacity(alloc, listeners.len())?;
    for (number, listener) in listeners.iter().enumerate() {
        match listener.local_addr() {
            Ok(address) => ports.push(address.port()).map_err(AllocError::from)?,
            Err(error) => return Err(in_use(alloc, number, HOST, 0, &error)),
        }
    }
    Ok(ports)
}

/// Listens where the node of that number is to listen, if no listener is open for it yet: at its port of that host, or of its own where
/// none is named.
pub fn listen_at<R>(
    rt: &R,
    number: usize,
    node: &NodeConfig,
    open: Option<TcpListener>,
    host: Option<&str>,
) -> Result<TcpListener, Failure>
where
    R: AllocGlobal + Net<Listener = TcpListener, Stream = TcpStream>,
{
    if let Some(listener) = open {
        return Ok(listener);
    }
    let host = host.unwrap_or(host_of(node));
    listen_on(rt, host, node.port).map_err(|error| in_use(
        rt.alloc(),
        number,
        host,
        node.port,
        &error,
    ))
}

fn in_use(alloc: Global, number: usize, host: &str, port: u16, error: &io::Error) -> Failure {
    let detail = format!(in alloc; "node {number}: {host}:{port} can't be listened on: {error}");
    Failure::new(ProgramFault::AddressInUse, detail)
}

// Listens at the first of the host's addresses that can be listened on. As many clients may wait to be accepted there as the system allows: std's
// own call lets 128 wait, and whoever comes behind these is tried again by the system after a second.
fn listen_on<R>(rt: &R, host: &str, port: u16) -> io::Result<TcpListener>
where
    R: Net<Listener = TcpListener, Stream = TcpStream>,
{
    let mut last = io::Error::from(ErrorKind::AddrNotAvailable);
    for place in (host, port).to_socket_addrs(rt)? {
        match listen_there(rt, place) {
            Ok(listener) => return Ok(listener),
            Err(error) => last = error,
        }
    }
    Err(last)
}

fn listen_there<R: Net>(rt: &R, place: SocketAddr) -> io::Result<TcpListener> {
    let listener = TcpListener::from(mio::net::TcpListener::bind(rt, place)?);
    listener.set_nonblocking(false)?;
    Ok(listener)
}
