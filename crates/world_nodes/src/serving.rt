//! Requests of clients, on connections that stay open.
ghost use Rattle.std.specs.Prelude.{◌≡◌, ◌<◌, ◌≤◌, [], Some, length, IfOk, OnOk};
ghost use Rattle.command_table.specs.declared.error_line.ErrorLine.TheVariants.{Exhausted};
ghost use Rattle.node_step.specs.Outcome.{error};
ghost use Rattle.node_step.specs.declared.event.Event.TheVariants.{Request};
ghost use Rattle.world_nodes.specs.Allowed.{MayTake};
ghost use Rattle.world_nodes.specs.NodeSteps.{Closes, beside_of_step, released_conns};
ghost use Rattle.world_nodes.specs.Nodes.{GoesOn, RemembersSent};
ghost use Rattle.world_nodes.specs.Serving.{IsOpened, Serves, ServesLast, reply_in};

use crate::output::Output;
use crate::run::Run;
use command_table::ErrorLine;
use connections::Conn;
use node_core::{Event, Outputs, Response};
use resp_values::{Reply, Words};
use std::alloc::AllocError;

/// What comes of a request.
#[derive(Drop)]
pub struct Served {
    /// The reply, if one comes.
    pub reply: Option<Reply>,
    /// What comes out beside it.
    pub outputs: Vec<Output>,
}

impl Run {
    /// Opens a connection at the node. None says that a number has no next one.
    pub fn open(&mut self, node: u64) -> Result<Option<Conn>, AllocError>
        requires remembers { RemembersSent self.old }
        requires there { node < length self.old.nodes }
        ensures goes_on { GoesOn self.old self.new }
        ensures remembers { OnOk result (RemembersSent self.new) }
        ensures opens { IfOk result (λ conn. IsOpened self.old node conn self.new) }
    {
        let Some(opening) = self.make(node, Event::Open)? else {
            return Ok(None);
        };
        let Response::Opened(conn) = opening.response else {
            unreachable!();
        };
        Ok(Some(conn))
    }

    /// The request reaches the node on this connection.
    pub fn serve(&mut self, node: u64, conn: Conn, words: Words) -> Result<Served, AllocError>
        requires remembers { RemembersSent self.old }
        requires there { node < length self.old.nodes }
        requires asks { MayTake self.old node (Request conn words) }
        ensures goes_on { GoesOn self.old self.new }
        ensures remembers { OnOk result (RemembersSent self.new) }
        ensures serves { IfOk result
            (λ served. Serves self.old node conn words served.reply served.outputs.items self.new) }
    {
        let first = self.count_sent();
        let Some(made) = self.make(node, Event::Request(conn, words))? else {
            return Ok(self.skipped());
        };
        let outputs = self.finish_beside(node, first, &made)?;
        Ok(Served {
            reply: reply_in(made.response),
            outputs,
        })
    }

    /// Closes the connections of requests that waited and got their replies by a step of the node, and shows what came out of it
    /// beside the reply to its own. The messages from that place on are those of the step.
    pub(crate) fn finish_beside(
        &mut self,
        node: u64,
        first: usize,
        made: &Outputs,
    ) -> Result<Vec<Output>, AllocError>
        requires there { node < length self.old.nodes }
        requires first { first ≤ length self.old.sent }
        ensures goes_on { GoesOn self.old self.new }
        ensures remembers { OnOk result (RemembersSent self.old → RemembersSent self.new) }
        ensures closes { OnOk result
            (Closes self.old node (released_conns made.now.released) self.new) }
        ensures shows { IfOk result (λ out. out.items ≡ beside_of_step node first self.old made.now) }
    {
        let outputs = self.beside(node, first, made)?;
        self.close_all(node, made.released.as_slice())?;
        Ok(outputs)
    }

    /// The request reaches the node on a connection that was cut, which the node then finds closed.
    pub fn serve_last(
        &mut self,
        node: u64,
        conn: Conn,
        words: Words,
    ) -> Result<Vec<Output>, AllocError>
        requires remembers { RemembersSent self.old }
        requires there { node < length self.old.nodes }
        requires asks { MayTake self.old node (Request conn words) }
        ensures goes_on { GoesOn self.old self.new }
        ensures remembers { OnOk result (RemembersSent self.new) }
        ensures serves { IfOk result
            (λ out. ServesLast self.old node conn words out.items self.new) }
    {
        let served = self.serve(node, conn, words)?;
        self.close(node, conn)?;
        Ok(served.outputs)
    }

    // A number has no next one.
    fn skipped(&self) -> Served
        ensures { (result.reply ≡ Some (error Exhausted)) × (result.outputs.items ≡ []) }
    {
        Served {
            reply: Some(ErrorLine::Exhausted.reply()),
            outputs: Vec::new(self.allocator()),
        }
    }
}

// The reply that comes on the connection of the request.
fn reply_in(response: Response) -> Option<Reply>
    ensures { result ≡ reply_in response }
{
    match response {
        Response::Replied(answer) => Some(answer.reply),
        _ => None,
    }
}
