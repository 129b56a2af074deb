//! A whole keyspace, taken from a snapshot.
ghost use Rattle.std.specs.Prelude.{◌≡◌, IfOk, OnOk, OnErr};
ghost use Rattle.keyspace.specs.Keyspace.{keyspace_of};
ghost use Rattle.bus.specs.Snapshot.{is_known};
ghost use Rattle.repl_stream.specs.Replica.{Restores, StaysIn, begun_again};

use crate::node_stream::NodeStream;
use crate::replaces::Replaces;
use crate::stream::Stream;
use bus::{Snapshot, StreamId};
use keyspace::Pair;
use std::alloc::{AllocError, Global};

impl<T: Stream> NodeStream<T> {
    /// Takes all pairs of the snapshot in place of what is in the store, and its place in the stream, or changes nothing.
    ///
    /// One of the own stream that isn't past the offset is known: it changes nothing either.
    pub fn snapshot<S: Replaces>(
        &mut self,
        alloc: Global,
        store: &mut S,
        snapshot: &Snapshot,
    ) -> Result<(), AllocError>
        ensures ok { OnOk result
            (Restores S.contents self.old store.old snapshot.now self.new store.new) }
        ensures err { OnErr result (StaysIn S.contents self.old store.old self.new store.new) }
        ensures keeps { self.new.keeps ≡ self.old.keeps }
    {
        if self.knows(snapshot) {
            return Ok(());
        }
        *store = store_of(alloc, snapshot.pairs.as_slice())?;
        self.begin_again(snapshot.stream, snapshot.offset);
        Ok(())
    }

    fn knows(&self, snapshot: &Snapshot) -> bool
        ensures { result ≡ is_known self.now.stream snapshot.now }
    {
        snapshot.stream == self.id() && snapshot.offset <= self.offset
    }

    // The stream goes on from there, and nothing of it is kept.
    fn begin_again(&mut self, id: StreamId, offset: u64)
        ensures stream { self.new.stream ≡ begun_again id offset self.old.stream }
        ensures keeps { self.new.keeps ≡ self.old.keeps }
    {
        self.stream.begin_at(id, offset);
        self.offset = offset;
        self.partial.clear();
    }
}

// A store with these pairs. Of two at one key the first counts.
fn store_of<S: Replaces>(alloc: Global, pairs: &[Pair]) -> Result<S, AllocError>
    ensures { IfOk result (λ store. S.contents store ≡ keyspace_of pairs.now) }
{
    let mut store = S::empty(alloc)?;
    for place in 0..pairs.len() {
        let pair = &pairs[pairs.len() - 1 - place];
        let _old = store.insert(pair.key().clone()?, pair.value().clone()?)?;
    }
    Ok(store)
}
