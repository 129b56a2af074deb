//! What a node has of a stream.
ghost use Rattle.std.specs.Prelude.{◌≡◌, ◌==◌, ◌≤◌, IfOk};
ghost use Rattle.bus.specs.Stream.{first_stream, is_whole, promoted, received};

use crate::stream::Stream;
use bus::{Base, StreamId};
use std::alloc::{AllocError, Global};
use std::marker::Model;

/// What a node has of a stream: the bytes that it received or wrote, and how far they are whole writes.
pub struct NodeStream<T: Stream> {
    /// The bytes.
    pub(crate) stream: T,
    /// The end of the last whole write.
    pub(crate) offset: u64,
    /// What was received past it.
    pub(crate) partial: Vec<u8>,
    /// The stream that it followed before it was promoted.
    pub(crate) former: Option<Base>,
}

impl<T: Stream + Drop> Drop for NodeStream<T> {
    fn drop(self) {
        let NodeStream {
            stream: _,
            offset: _,
            partial: _,
            former: _,
        } = self;
    }
}

impl<T: Stream> Model for NodeStream<T> {
    ghost use Rattle.std.specs.Prelude.{◌≡◌, ◌+◌, length};
    ghost use Rattle.bus.specs.Stream.{end_of};
    ghost use Rattle.repl_stream.specs.NodeStream.{NodeStreamView};

    ghost Value = { NodeStreamView };

    ghost view = { λ replica. record {
      stream = record {
        held = T.held replica.stream;
        offset = replica.offset;
        partial = replica.partial.items;
        former = replica.former;
      };
      room = T.room replica.stream;
      keeps = T.keeps replica.stream;
    } };

    ghost invariant = { λ replica.
        end_of (T.held replica.stream) ≡ replica.offset + length replica.partial.items };
}

impl<T: Stream> NodeStream<T> {
    /// Nothing yet of a stream, from where it begins. It is to keep so many of the last bytes.
    pub fn begin(alloc: Global, id: StreamId, kept: usize) -> Result<NodeStream<T>, AllocError>
        ensures stream { IfOk result (λ replica. replica.stream ≡ first_stream id) }
        ensures keeps { IfOk result (λ replica. replica.keeps ≡ kept) }
    {
        let stream = T::begin(alloc, id, kept)?;
        Ok(NodeStream {
            stream,
            offset: 0,
            partial: Vec::new(alloc),
            former: None,
        })
    }

    /// The stream that it follows, or writes.
    pub fn id(&self) -> StreamId
        ensures { result ≡ self.now.stream.held.id }
    {
        self.stream.id()
    }

    /// Whether it keeps no byte that came.
    pub fn keeps_none(&self) -> bool
        ensures { result ≡ (self.now.keeps == 0) }
    {
        self.stream.kept() == 0
    }

    /// Where the bytes end.
    pub fn received(&self) -> u64
        ensures end { result ≡ received self.now.stream }
        ensures whole { self.now.stream.offset ≤ result }
    {
        self.stream.end()
    }

    /// The end of the last whole write.
    pub fn offset(&self) -> u64
        ensures { result ≡ self.now.stream.offset }
    {
        self.offset
    }

    /// Whether it has no beginning of a write past that.
    pub fn is_whole(&self) -> bool
        ensures { result ≡ is_whole self.now.stream }
    {
        self.partial.is_empty()
    }

    /// The stream that it followed before it was promoted, and where that one ended.
    pub fn former(&self) -> Option<Base>
        ensures { result ≡ self.now.stream.former }
    {
        self.former
    }

    /// Makes the node, which was a replica, a master: it goes on from its offset under an id of its own. It takes no memory.
    pub fn promote(&mut self, id: StreamId)
        ensures stream { self.new.stream ≡ promoted id self.old.stream }
        ensures keeps { self.new.keeps ≡ self.old.keeps }
    {
        self.former = Some(Base {
            stream: self.stream.id(),
            end: self.offset,
        });
        self.stream.cut_at(self.offset, id);
        self.partial.clear();
    }
}
