//! What was received of a stream, read.
ghost use Rattle.std.specs.Prelude.{◌++◌, IfOk};
ghost use Rattle.repl_stream.specs.Reading.{Reads};

use crate::requests::plan_requests;
use keyspace::{Plan, Store};
use std::alloc::{AllocError, Global};

/// What received bytes come to.
#[derive(Drop)]
pub struct Received {
    /// What their whole requests change.
    pub plan: Plan,
    /// The bytes behind these, which are the beginning of one.
    pub rest: Vec<u8>,
}

/// Reads what stayed of earlier bytes, and the news behind it. The store stays as it is.
pub fn read<S: Store>(
    alloc: Global,
    store: &S,
    stayed: &[u8],
    news: &[u8],
) -> Result<Received, AllocError>
    ensures { IfOk result (λ received.
        Reads (S.contents store.now) (stayed.now ++ news.now) received) }
{
    if stayed.is_empty() {
        return read_bytes(alloc, store, news);
    }
    let mut bytes = Vec::with_capacity(alloc, stayed.len().saturating_add(news.len()))?;
    bytes.extend_from_slice(stayed)?;
    bytes.extend_from_slice(news)?;
    read_bytes(alloc, store, bytes.as_slice())
}

fn read_bytes<S: Store>(alloc: Global, store: &S, bytes: &[u8]) -> Result<Received, AllocError>
    ensures { IfOk result (λ received. Reads (S.contents store.now) bytes.now received) }
{
    let mut plan = Plan::new(alloc);
    let rest = plan_requests(alloc, store, &mut plan, bytes)?;
    let rest = Vec::from_slice(alloc, rest)?;
    Ok(Received { plan, rest })
}
