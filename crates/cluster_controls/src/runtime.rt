//! What the threads of a cluster ask of the program's runtime.
use std::net::{Net, TcpListener, TcpStream};
use std::rt::Clock;
use std::sync::Wait;
use std::thread::Threads;

/// A runtime by which a cluster is served: it starts threads, has them wait, tells the time, and reaches the network.
///
/// Whatever can do these is one.
pub trait Runtime: Threads
    + Wait
    + Clock
    + Net<Listener = TcpListener, Stream = TcpStream>
    + Copy
    + Drop
    + Send
    + Sync
    + 'static {}

impl<R> Runtime for R
where
    R: Threads
        + Wait
        + Clock
        + Net<Listener = TcpListener, Stream = TcpStream>
        + Copy
        + Drop
        + Send
        + Sync
        + 'static,
{}
