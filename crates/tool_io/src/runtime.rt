//! What a tool asks of the program's runtime.
use std::net::{Net, TcpListener, TcpStream};
use std::rt::Clock;

/// A runtime by which a tool works: it has memory, prints, tells the time, and reaches the network.
///
/// Whatever can do these is one.
pub trait ToolRuntime: AllocGlobal
    + Print
    + Eprint
    + Clock
    + Net<Listener = TcpListener, Stream = TcpStream>
    + Copy
    + Drop {}

impl<R> ToolRuntime for R
where
    R: AllocGlobal
        + Print
        + Eprint
        + Clock
        + Net<Listener = TcpListener, Stream = TcpStream>
        + Copy
        + Drop,
{}
