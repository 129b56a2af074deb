//! A client that is served by a thread of its own.

use client_loops::{Lingering, is_told};
use cluster_controls::Runtime;
use listener::{Came, ConnFault, Rest, read_once, serve_conn};
use node_cell::{Asks, HasLinks};
use resp2::Counting;
use shared_node::{Mail, SeeingGate, SharedCluster};
use std::alloc::Global;
use std::net::TcpStream;
use std::rt::Clock;
use std::sync::Arc;

// How many bytes are read at once of a client that was told why its conversation ended. They lie on the stack of its thread.
const ROOM: usize = 4_096;

/// Serves one client, which has asked nothing yet, and is then done with the cluster. What ends the conversation concerns this client alone.
pub(crate) fn serve_client<C: HasLinks<R> + Drop, R: Runtime>(
    rt: R,
    alloc: Global,
    cluster: Arc<SharedCluster<C>, Global>,
    number: usize,
    asks: Asks<C::Cluster>,
    stream: &TcpStream,
) {
    let ended = converse(rt, alloc, &*cluster, number, asks, stream);
    drop(cluster);
    // A bad byte isn't told from the client's own end here. Behind that end there is nothing to read.
    if is_told(ended.map(|_| Rest::BadByte)) {
        linger(&rt, stream);
    }
}

fn converse<C: HasLinks<R> + Drop, R: Runtime>(
    rt: R,
    alloc: Global,
    cluster: &SharedCluster<C>,
    number: usize,
    asks: Asks<C::Cluster>,
    stream: &TcpStream,
) -> Result<(), ConnFault> {
    // A reply is one write, so nothing is gained by waiting for more.
    let _nodelay = stream.set_nodelay(true);
    let Some(mut gate) = SeeingGate::new(rt, alloc, cluster, number, asks, Mail::IsFetched) else {
        return Err(ConnFault::Unanswered);
    };
    let mut reader = Counting::new(stream);
    let mut writer = Counting::new(stream);
    serve_conn(alloc, &mut gate, &mut reader, &mut writer)
}

// Reads what a client goes on to send that was told why its conversation ended, for a moment, and forgets it.
fn linger<R: Clock>(rt: &R, stream: &TcpStream) {
    let Some(mut lingering) = Lingering::begin(rt, stream) else {
        return;
    };
    let mut room = [0u8; ROOM];
    for _ in 0..u64::MAX {
        let left = lingering.time_left(rt);
        if left.is_none() || stream.set_read_timeout(left).is_err() {
            return;
        }
        if !reads_on(stream, &mut room, &mut lingering) {
            return;
        }
    }
}

// Reads once, and says whether more may be read.
fn reads_on(stream: &TcpStream, room: &mut [u8], lingering: &mut Lingering) -> bool {
    match read_once(&mut Counting::new(stream), room) {
        Ok(Came::Bytes(count)) => lingering.note_read(count),
        Ok(Came::Interrupted) => true,
        Ok(Came::End | Came::Nothing) | Err(_) => false,
    }
}
