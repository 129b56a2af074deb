//! The target of a move, to which its source sends the keys. Only the source hears of it, so a run has to look for itself whether
//! it is still there.

use crate::watched::Seen;
use std::cell::RefCell;
use std::io;
use std::io::ErrorKind;
use std::net::{Net, TcpStream, ToSocketAddrs};
use std::time::Duration;

// How many seconds a run waits for a target to take a connection or to refuse it. One that does neither by then may be there.
const PATIENCE: u64 = 1;

/// Fails where the source is asked to move a key to a node that refuses connections. That is seen.
pub(crate) fn look_for_target<R: Net>(rt: &R, seen: &RefCell<Seen>) -> io::Result<()> {
    let Some(error) = refusal_at(rt, seen) else {
        return Ok(());
    };
    if let Ok(mut seen) = seen.try_borrow_mut() {
        seen.see_no_target(&error);
    }
    Err(error)
}

// How the target refuses a connection, if there is one and it does.
fn refusal_at<R: Net>(rt: &R, seen: &RefCell<Seen>) -> Option<io::Error> {
    let seen = seen.try_borrow().ok()?;
    if seen.target.is_empty() {
        return None;
    }
    refusal_of(rt, seen.target.as_str())
}

// How all places at which the node of the address may be refuse a connection, if they do.
fn refusal_of<R: Net>(rt: &R, address: &str) -> Option<io::Error> {
    let mut refusal = None;
    for place in address.to_socket_addrs(rt).ok()? {
        match TcpStream::connect_timeout(rt, &place, Duration::from_secs(PATIENCE)) {
            Err(error) if error.kind() == ErrorKind::ConnectionRefused => refusal = Some(error),
            _ => return None,
        }
    }
    refusal
}
