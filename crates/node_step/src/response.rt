//! What the sender of an event gets back.
ghost use Rattle.std.specs.Prelude.{◌≡◌, IfOk, IsOk};
ghost use Rattle.node_step.specs.Plain.{HasNoReply};

use command_table::CommandFault;
use connections::Conn;
use migrate::CopyVerdict;
use redirect::Decision;
use resp_values::Reply;
use slot_state::{ImportVerdict, MigrateVerdict, NodeVerdict};
use std::alloc::AllocError;

/// Why a request is answered as it is.
///
/// Only a command that was decided [`Serve`](Decision::Serve) or [`ServeImport`](Decision::ServeImport) was executed.
#[derive(Clone, Copy, PartialEq, Eq, Debug)]
pub enum Why {
    /// The words are not a command.
    NotACommand(CommandFault),
    /// The command reads or writes keys, and this was decided by their slot.
    Decided(Decision),
    /// The command asks about the cluster, and the node reported it.
    Reported,
    /// The command tells how the next requests of its connection are to be taken.
    Told,
    /// The command orders to import a slot.
    Imports(ImportVerdict),
    /// The command orders to migrate a slot.
    Migrates(MigrateVerdict),
    /// The command orders to give a slot to a node.
    Ends(NodeVerdict),
    /// The command orders to copy a key, and is refused.
    Copies(CopyVerdict),
    /// The command orders a replica to take the place of its master.
    TakesOver,
}

/// A reply, and why the node gives it. The reply is determined by the reason, the request and the state of the node.
#[derive(Debug, Drop)]
pub struct Answer {
    /// Why the node gives this reply.
    pub why: Why,
    /// What the client reads.
    pub reply: Reply,
}

impl Clone for Answer {
    ghost is_clone = { λ answer copy. copy ≡ answer };

    fn clone(&self) -> Result<Answer, AllocError> {
        Ok(Answer {
            why: self.why,
            reply: self.reply.clone()?,
        })
    }
}

/// What the sender of an event gets back.
#[derive(Debug, Drop)]
pub enum Response {
    /// Nothing: a connection was closed, time passed, a message was taken, or the connection named is not open.
    Nothing,
    /// The connection that an Open made.
    Opened(Conn),
    /// The answer to a Request.
    Replied(Answer),
    /// The answer to a Request comes by a later step.
    Parked,
}

impl Response {
    /// An equal copy, which shares what is long. It fails only where there is a reply.
    pub fn copy(&self) -> Result<Response, AllocError>
        ensures same { IfOk result (λ copy. copy ≡ self.now) }
        ensures plain { HasNoReply self.now → IsOk result }
    {
        match self {
            Response::Nothing => Ok(Response::Nothing),
            Response::Opened(conn) => Ok(Response::Opened(*conn)),
            Response::Replied(answer) => Ok(Response::Replied(answer.clone()?)),
            Response::Parked => Ok(Response::Parked),
        }
    }
}
