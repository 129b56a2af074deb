//! One read of what a client sends.
ghost use Rattle.std.specs.Prelude.{◌≡◌, IfOk, IfErr, OnErr};
ghost use Rattle.std.specs.Io.KnownBytes.{Keeps};
ghost use Rattle.resp2.specs.Counting.{HasRisen};
ghost use Rattle.listener.specs.Streams.{streams};
ghost use Rattle.listener.specs.Turns.{Gives};

use crate::fault::ConnFault;
use resp2::Counting;
use std::io::{ErrorKind, Read};

/// What one read gave.
#[derive(Clone, Copy, PartialEq, Eq, Debug)]
pub enum Came {
    /// This many bytes, one at least.
    Bytes(usize),
    /// The client sends nothing more.
    End,
    /// The client has sent nothing since the last read.
    Nothing,
    /// A signal came before anything else did.
    Interrupted,
}

/// Reads once, and says what came into the room. The reader may be one that doesn't wait.
pub fn read_once<R: Read>(reader: &mut Counting<R>, room: &mut [u8]) -> Result<Came, ConnFault>
    ensures came { IfOk result (Gives (streams R.remaining reader.old reader.new) room.new) }
    ensures fault { IfErr result (λ fault. fault ≡ ConnFault.Reader) }
    ensures kept { OnErr result
        (Keeps (R.remaining reader.old.inner) (R.remaining reader.new.inner)) }
    ensures risen { OnErr result (HasRisen reader.old.failures reader.new.failures) }
{
    match reader.read(room) {
        Ok(0) => Ok(Came::End),
        Ok(count) => Ok(Came::Bytes(count)),
        Err(error) => match error.kind() {
            ErrorKind::WouldBlock => Ok(Came::Nothing),
            ErrorKind::Interrupted => Ok(Came::Interrupted),
            _ => Err(ConnFault::Reader),
        },
    }
}
