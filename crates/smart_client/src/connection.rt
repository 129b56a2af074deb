//! A connection to a node.
ghost use Rattle.std.specs.Prelude.{◌≡◌, IfOk};
ghost use Rattle.smart_client.specs.Step.{MayComeTo};
ghost use Rattle.smart_client.specs.Wires.{Brings, IsFresh, channel_at, event_of};
ghost use Rattle.smart_client.specs.declared.call.Stage.TheVariants.{Sent};

use crate::action::Event;
use crate::connect::Reaches;
use exchange::{Buffers, Outcome, Sender, exchange};
use redirection::Address;
use resp2::{Counting, ReplyReader, Words};
use std::alloc::{AllocError, Global};
use std::io::{Read, Write};
use std::snapshot::Snapshot;

/// A connection to a node, on which one request at a time is answered.
#[derive(Drop)]
pub(crate) struct Connection<R: Read + Reaches + Drop, W: Write + Reaches + Drop> {
    /// Where the node is.
    pub address: Address,
    reader: Counting<R>,
    sender: Sender<W>,
    replies: ReplyReader,
    buffers: Buffers,
    // The ends as they were made: no read or write makes another connection of them.
    reads_from: Snapshot<R>,
    writes_to: Snapshot<W>,
}

impl<R: Read + Reaches + Drop, W: Write + Reaches + Drop> Connection<R, W> {
    /// A connection on which nothing was sent.
    pub(crate) fn new(
        alloc: Global,
        address: Address,
        reader: R,
        writer: W,
    ) -> Result<Connection<R, W>, AllocError>
        requires reader { R.place reader ≡ address }
        requires writer { W.place writer ≡ address }
        ensures address { IfOk result (λ connection. connection.address ≡ address) }
        ensures fresh { IfOk result (λ connection. IsFresh address (channel_at R.remaining W.contents R.place W.place connection)) }
    {
        let reads_from = Snapshot::of(&reader);
        let writes_to = Snapshot::of(&writer);
        Ok(Connection {
            address,
            reader: Counting::new(reader),
            sender: Sender::new(writer),
            replies: ReplyReader::new(alloc),
            buffers: Buffers::new(alloc)?,
            reads_from,
            writes_to,
        })
    }

    /// Sends the request in one write, and reads the reply.
    pub(crate) fn exchange(&mut self, words: &Words) -> Event
        ensures event { MayComeTo Sent result }
        ensures address { self.new.address ≡ self.old.address }
        ensures brings { Brings words.now (channel_at R.remaining W.contents R.place W.place self.old) result
            (channel_at R.remaining W.contents R.place W.place self.new) }
    {
        event_of(exchange(
            words,
            &mut self.reader,
            &mut self.sender,
            &mut self.replies,
            &mut self.buffers,
        ))
    }
}

// What came of a request, as a client's core is told.
fn event_of(outcome: Outcome) -> Event
    ensures same { result ≡ event_of outcome }
    ensures event { MayComeTo Sent result }
{
    match outcome {
        Outcome::Reply(reply) => Event::Reply(reply),
        Outcome::BadReply => Event::BadReply,
        Outcome::Broken { handed } => Event::Broken { handed },
        Outcome::NoMemory { handed } => Event::NoMemory { handed },
    }
}
