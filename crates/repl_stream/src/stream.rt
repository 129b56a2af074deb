//! Where the bytes of a stream stand: the trait of all streams.
ghost use Rattle.std.specs.Prelude.{◌≡◌, ◌+◌, ◌-◌, ◌<◌, ◌≤◌, ◌^◌, length, IfOk, IfErr, OnOk};
ghost use Rattle.bus.specs.Stream.{begun, cut, end_of, with_appended};
ghost use Rattle.repl_stream.specs.Faults.{MayRefuse};
ghost use Rattle.repl_stream.specs.Kept.{part_from};

use crate::fault::StreamFault;
use bus::StreamId;
use byte_string::ByteString;
use std::alloc::{AllocError, Global};

/// Bytes of a stream, from the first offset of which they are kept to the last that came.
///
/// It may give up bytes in front as others come: how many, each body says for itself, but none of the last ones that it was made to keep.
/// All offsets are below 2 ^ 64.
pub trait Stream {
    ghost use Rattle.std.specs.Prelude.{ℕ};
    ghost use Rattle.bus.specs.Stream.{Held};

    /// What it keeps.
    ghost held: { Self → Held };

    /// So many more bytes take no memory, and may be still more.
    ghost room: { Self → ℕ };

    /// As many bytes in front go as so many more come.
    ghost gives_up: { Self → ℕ → ℕ };

    /// None of so many of the last bytes goes.
    ghost keeps: { Self → ℕ };

    /// A stream without bytes, which begins at offset 0, and is to keep so many of the last bytes.
    fn begin(alloc: Global, id: StreamId, kept: usize) -> Result<Self, AllocError>
        ensures empty { IfOk result (λ stream. held stream ≡ begun id 0) }
        ensures keeps { IfOk result (λ stream. keeps stream ≡ kept) };

    /// The stream.
    fn id(&self) -> StreamId
        ensures { result ≡ (held self.now).id };

    /// The first offset that is kept.
    fn first(&self) -> u64
        ensures { result ≡ (held self.now).first };

    /// Where the bytes end.
    fn end(&self) -> u64
        ensures { result ≡ end_of (held self.now) };

    /// How many of the last bytes it was made to keep.
    fn kept(&self) -> usize
        ensures { result ≡ keeps self.now };

    /// Makes room for so many more bytes.
    fn reserve(&mut self, count: usize) -> Result<(), AllocError>
        ensures held { held self.new ≡ held self.old }
        ensures keeps { keeps self.new ≡ keeps self.old }
        ensures room { OnOk result (count ≤ room self.new) };

    /// Puts the bytes, for which there is room, behind those that it has. It takes no memory.
    fn append(&mut self, bytes: &[u8])
        requires room { length bytes.now ≤ room self.old }
        requires fits { end_of (held self.old) + length bytes.now < 2 ^ 64 }
        ensures appended { held self.new
            ≡ with_appended (gives_up self.old (length bytes.now)) bytes.now (held self.old) }
        ensures within { gives_up self.old (length bytes.now)
            ≤ length (held self.old).bytes + length bytes.now - keeps self.old }
        ensures keeps { keeps self.new ≡ keeps self.old };

    /// At most so many bytes, from that offset on. From the end on there are none.
    fn piece(&self, alloc: Global, from: u64, most: usize) -> Result<ByteString, StreamFault>
        ensures bytes { IfOk result (λ bytes. bytes ≡ part_from (held self.now) from most) }
        ensures kept { OnOk result ((held self.now).first ≤ from) }
        ensures err { IfErr result (λ fault. MayRefuse fault (from < (held self.now).first)) };

    /// Keeps what is before that offset, under that id from now on. Room stays room.
    fn cut_at(&mut self, offset: u64, id: StreamId)
        requires { offset ≤ end_of (held self.old) }
        ensures cut { held self.new ≡ cut offset id (held self.old) }
        ensures keeps { keeps self.new ≡ keeps self.old }
        ensures room { room self.old ≤ room self.new };

    /// Keeps nothing: the next byte is the one at that offset of that stream.
    fn begin_at(&mut self, id: StreamId, offset: u64)
        ensures held { held self.new ≡ begun id offset }
        ensures keeps { keeps self.new ≡ keeps self.old };
}
