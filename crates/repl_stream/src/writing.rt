//! What a master puts behind its stream.
ghost use Rattle.std.specs.Prelude.{◌≡◌, ◌+◌, ◌<◌, ◌≤◌, ◌^◌, true, length, IfErr, OnOk};
ghost use Rattle.bus.specs.Stream.{Writes, received};
ghost use Rattle.repl_stream.specs.Faults.{IsRefusedAt};
ghost use Rattle.repl_stream.specs.Replica.{WritesAny};

use crate::fault::AppendFault;
use crate::node_stream::NodeStream;
use crate::stream::Stream;
use crate::written::Written;

impl<T: Stream> NodeStream<T> {
    /// Makes room for so many more bytes, so that [`append`](NodeStream::append) takes no memory. What can fail is done between
    /// the two calls.
    pub fn reserve(&mut self, count: usize) -> Result<(), AppendFault>
        ensures stream { self.new.stream ≡ self.old.stream }
        ensures keeps { self.new.keeps ≡ self.old.keeps }
        ensures room { OnOk result (count ≤ self.new.room) }
        ensures fits { OnOk result (received self.new.stream + count < 2 ^ 64) }
        ensures fault { IfErr result
            (λ fault. IsRefusedAt fault (received self.old.stream + count)) }
    {
        if count as u64 > u64::MAX - self.stream.end() {
            return Err(AppendFault::Exhausted);
        }
        self.stream.reserve(count)?;
        Ok(())
    }

    /// Puts the bytes of whole writes behind the stream. It takes no memory.
    pub fn append(&mut self, written: &Written)
        requires room { length written.now.bytes ≤ self.old.room }
        requires fits { received self.old.stream + length written.now.bytes < 2 ^ 64 }
        requires counted { written.now.is_counted ≡ true → self.old.keeps ≡ 0 }
        ensures writes { Writes self.old.keeps written.now.bytes self.old.stream self.new.stream }
        ensures keeps { self.new.keeps ≡ self.old.keeps }
    {
        match written.as_slice() {
            Some(bytes) => self.append_bytes(bytes),
            None => self.pass(written.len()),
        }
    }

    fn append_bytes(&mut self, bytes: &[u8])
        requires room { length bytes.now ≤ self.old.room }
        requires fits { received self.old.stream + length bytes.now < 2 ^ 64 }
        ensures writes { Writes self.old.keeps bytes.now self.old.stream self.new.stream }
        ensures keeps { self.new.keeps ≡ self.old.keeps }
    {
        self.stream.append(bytes);
        self.offset += bytes.len() as u64;
    }

    // Goes on by so many bytes, of which none is kept.
    #[tactic(auto, using(crate::proofs::WritingLemmas::passed))]
    fn pass(&mut self, count: usize)
        requires fits { received self.old.stream + count < 2 ^ 64 }
        requires none { self.old.keeps ≡ 0 }
        ensures passed { WritesAny self.old.keeps count self.old.stream self.new.stream }
        ensures keeps { self.new.keeps ≡ self.old.keeps }
    {
        let (id, end) = (self.stream.id(), self.stream.end());
        self.stream.begin_at(id, end + count as u64);
        self.offset += count as u64;
    }
}
