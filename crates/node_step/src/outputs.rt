//! What a step gives to the world outside its node.
ghost use Rattle.std.specs.Prelude.{◌≡◌, ◌<◌, [], map, length, position, IfOk, IfSome, IsOk};
ghost use Rattle.node_step.specs.Released.{is_for, of_others, reply_to, without_reply_to};
ghost use Rattle.node_step.specs.Outcome.{release, stamped};
ghost use Rattle.node_step.specs.Plain.{IsPlain};

use crate::few::Few;
use crate::promotion::Promoted;
use crate::response::Response;
use bus::{Body, Message};
use connections::Conn;
use resp_values::Reply;
use slot_table::{Epoch, NodeNo};
use std::alloc::{AllocError, Global};
use std::marker::Model;

/// A reply to a connection that waited for it.
#[derive(Debug, Drop)]
pub struct Release {
    /// The connection.
    pub conn: Conn,
    /// What its client reads.
    pub reply: Reply,
}

impl Clone for Release {
    ghost is_clone = { λ release copy. copy ≡ release };

    fn clone(&self) -> Result<Release, AllocError> {
        Ok(Release {
            conn: self.conn,
            reply: self.reply.clone()?,
        })
    }
}

/// Replies to connections that waited, by rising key.
#[derive(Debug)]
pub struct Releases {
    releases: Few<Release>,
}

impl Model for Releases {
    ghost use Rattle.std.specs.Prelude.{List};
    ghost use Rattle.node_step.specs.declared.outputs.Release.{Release as Released};

    ghost Value = { List Released };

    ghost view = { λ releases. releases.releases };
}

impl Drop for Releases {
    fn drop(self) {
        let Releases { releases: _ } = self;
    }
}

impl Releases {
    /// No reply. It takes no memory.
    pub fn new() -> Releases
        ensures { result ≡ [] }
    {
        Releases {
            releases: Few::none(),
        }
    }

    /// The same reply to each of the connections.
    pub fn to_all(alloc: Global, conns: &[Conn], reply: &Reply) -> Result<Releases, AllocError>
        ensures { IfOk result (λ releases. releases ≡ map (release reply.now) conns.now) }
    {
        let mut releases = Vec::with_capacity(alloc, conns.len())?;
        for conn in conns {
            let release = Release {
                conn: *conn,
                reply: reply.clone()?,
            };
            releases.push(release)?;
        }
        let releases = Few::of(alloc, releases)?;
        Ok(Releases { releases })
    }

    /// The replies in order.
    pub fn as_slice(&self) -> &[Release]
        ensures { result.now ≡ self.now }
    {
        self.releases.as_slice()
    }

    /// Takes out the first reply to the connection.
    pub fn take(&mut self, conn: Conn) -> Option<Reply>
        ensures reply { result ≡ reply_to conn self.old }
        ensures left { self.new ≡ without_reply_to conn self.old }
    {
        match &mut self.releases.items {
            Some(releases) => take_from(releases, conn),
            None => None,
        }
    }

    /// Drops the replies to the connection.
    pub fn forget(&mut self, conn: Conn)
        ensures { self.new ≡ of_others conn self.old }
    {
        match &mut self.releases.items {
            Some(releases) => forget_in(releases, conn),
            None => {}
        }
    }

    // An equal copy, which takes no memory where there is no reply.
    fn copy(&self) -> Result<Releases, AllocError>
        ensures same { IfOk result (λ copy. copy ≡ self.now) }
        ensures plain { self.now ≡ [] → IsOk result }
    {
        match &self.releases.items {
            Some(releases) if !releases.is_empty() => Ok(Releases {
                releases: Few {
                    items: Some(releases.clone()?),
                },
            }),
            _ => Ok(Releases::new()),
        }
    }
}

// Takes out the first reply to the connection.
fn take_from(releases: &mut Vec<Release>, conn: Conn) -> Option<Reply>
    ensures reply { result ≡ reply_to conn releases.old.items }
    ensures left { releases.new.items ≡ without_reply_to conn releases.old.items }
{
    let place = place_of(releases.as_slice(), conn)?;
    Some(releases.remove(place).reply)
}

// The place of the first reply to the connection.
fn place_of(releases: &[Release], conn: Conn) -> Option<usize>
    ensures place { result ≡ position (is_for conn) releases.now }
    ensures within { IfSome result (λ place. place < length releases.now) }
{
    releases.iter().position(|release| release.conn == conn)
}

// Drops the replies to the connection.
fn forget_in(releases: &mut Vec<Release>, conn: Conn)
    ensures { releases.new.items ≡ of_others conn releases.old.items }
{
    releases.retain(|release| release.conn != conn);
}

/// Messages to other nodes, in the order in which they are numbered.
#[derive(Debug)]
pub struct Messages {
    messages: Few<Message>,
}

impl Model for Messages {
    ghost use Rattle.std.specs.Prelude.{List};
    ghost use Rattle.bus.specs.declared.message.Message.{Message as Sent};

    ghost Value = { List Sent };

    ghost view = { λ messages. messages.messages };
}

impl Drop for Messages {
    fn drop(self) {
        let Messages { messages: _ } = self;
    }
}

impl Messages {
    /// No message. It takes no memory.
    pub fn new() -> Messages
        ensures { result ≡ [] }
    {
        Messages {
            messages: Few::none(),
        }
    }

    /// The messages that a node sends by the step of that ticket, each a body with the node that it is for.
    #[inline(always)]
    pub fn stamped(
        alloc: Global,
        from: NodeNo,
        ticket: u64,
        epoch: Epoch,
        bodies: Vec<(NodeNo, Body)>,
    ) -> Result<Messages, AllocError>
        ensures sent { IfOk result
            (λ messages. messages ≡ map (stamped from ticket epoch) bodies.items) }
        ensures none { bodies.items ≡ [] → IsOk result }
    {
        if bodies.is_empty() {
            return Ok(Messages::new());
        }
        let mut messages = Vec::with_capacity(alloc, bodies.len())?;
        for (to, body) in bodies {
            let message = Message {
                from,
                to,
                ticket,
                epoch,
                body,
            };
            messages.push(message)?;
        }
        let messages = Few::of(alloc, messages)?;
        Ok(Messages { messages })
    }

    /// The messages in order, by value.
    pub fn into_vec(self, alloc: Global) -> Vec<Message>
        ensures { result.items ≡ self }
    {
        let Messages { messages } = self;
        match messages.items {
            Some(messages) => Box::into_inner(messages),
            None => Vec::new(alloc),
        }
    }

    /// The messages in order.
    pub fn as_slice(&self) -> &[Message]
        ensures { result.now ≡ self.now }
    {
        self.messages.as_slice()
    }

    // An equal copy, which takes no memory where there is no message.
    fn copy(&self) -> Result<Messages, AllocError>
        ensures same { IfOk result (λ copy. copy ≡ self.now) }
        ensures plain { self.now ≡ [] → IsOk result }
    {
        match &self.messages.items {
            Some(messages) if !messages.is_empty() => Ok(Messages {
                messages: Few {
                    items: Some(messages.clone()?),
                },
            }),
            _ => Ok(Messages::new()),
        }
    }
}

/// What a step gives to the world outside its node.
#[derive(Debug, Drop)]
pub struct Outputs {
    /// The number of the step among the steps of all nodes.
    pub ticket: u64,
    /// What the sender of the event gets back.
    pub response: Response,
    /// What connections get that waited.
    pub released: Releases,
    /// What other nodes are sent.
    pub sent: Messages,
    /// That the node became a master, if it did.
    pub promoted: Promoted,
}

impl Outputs {
    /// An equal copy, which shares what is long. It fails only where there is a reply, a message or a promotion.
    pub fn copy(&self) -> Result<Outputs, AllocError>
        ensures same { IfOk result (λ copy. copy ≡ self.now) }
        ensures plain { IsPlain self.now → IsOk result }
    {
        Ok(Outputs {
            ticket: self.ticket,
            response: self.response.copy()?,
            released: self.released.copy()?,
            sent: self.sent.copy()?,
            promoted: self.promoted.copy()?,
        })
    }
}
