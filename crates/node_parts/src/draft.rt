//! What a step gives, before its state changes.
ghost use Rattle.std.specs.Prelude.{◌≡◌, IfOk};
ghost use Rattle.keyspace.specs.Keyspace.{Keyspace};
ghost use Rattle.keyspace.specs.Plan.{committed};
ghost use Rattle.node_parts.specs.Drafts.{Drafts, DraftsBy, HasNothing, Promotes, bodies_of, parking, DraftsIn, releases_of, releasing, replying, with_reply};
ghost use Rattle.node_parts.specs.Succession.{promoting};
ghost use Rattle.node_step.specs.Outcome.{replied, silent};
ghost use Rattle.node_step.specs.Requests.{using_up};

use crate::change::Change;
use crate::parts::NodeParts;
use crate::succession::Succession;
use bus::Body;
use connections::{Conn, Waiting};
use keyspace::Plan;
use node_step::{Answer, Releases, Response, Why};
use repl_stream::{Stream, Written};
use resp_values::Reply;
use slot_store::SlotParts;
use slot_table::{Epoch, NodeNo};
use std::alloc::{AllocError, Global};

/// A step that is decided and not made yet.
///
/// It is large, so it stays where it was made, and the functions that decide write into it.
pub struct Draft {
    /// What the sender of the event gets back.
    pub response: Response,
    /// What connections get that waited.
    pub released: Releases,
    /// What other nodes are sent, each body with the node that it is for.
    pub bodies: Vec<(NodeNo, Body)>,
    /// The node's epoch after the step.
    pub epoch: Epoch,
    /// What it writes behind the node's stream: the bytes of requests.
    pub written: Written,
    /// What changes of keys, where the change says that a plan is committed.
    pub plan: Plan,
    /// What else changes in the node.
    pub change: Change,
    /// Whose place the node takes, if it is promoted.
    pub succession: Option<Succession>,
}

// Its parts are dropped in one place.
impl Drop for Draft {
    fn drop(self) {
        let Draft {
            response: _,
            released: _,
            bodies: _,
            epoch: _,
            written: _,
            plan: _,
            change: _,
            succession: _,
        } = self;
    }
}

impl Draft {
    #[inline(always)]
    fn put_reply(&mut self, why: Why, reply: Reply)
        ensures { self.new ≡ with_reply self.old why reply }
    {
        self.response = Response::Replied(Answer { why, reply });
    }

    fn put_bodies(&mut self, bodies: Vec<(NodeNo, Body)>)
        ensures { self.new ≡ record self.old { bodies = bodies } }
    {
        self.bodies = bodies;
    }

    #[inline(always)]
    fn put_change(&mut self, change: Change)
        ensures { self.new ≡ record self.old { change = change } }
    {
        self.change = change;
    }
}

impl<S: SlotParts, T: Stream> NodeParts<S, T> {
    /// A draft in which nothing comes out, and nothing changes.
    pub fn blank(&self) -> Draft
        ensures nothing { HasNothing self.now result }
        ensures plan { (keyspace : Keyspace) → committed keyspace result.plan ≡ keyspace }
    {
        Draft {
            response: Response::Nothing,
            released: Releases::new(),
            bodies: Vec::new(self.alloc),
            epoch: self.election.current_epoch,
            written: Written::nothing(self.alloc),
            plan: Plan::new(self.alloc),
            change: Change::Nothing,
            succession: None,
        }
    }

    /// Nothing comes out but the change.
    pub fn draft_change(&self, draft: &mut Draft, change: Change)
        requires { HasNothing self.now draft.old }
        ensures { DraftsBy self.now draft.old change silent draft.new }
    {
        draft.put_change(change);
    }

    /// A reply comes out, and nothing changes but the asking of the connection.
    pub fn tell(&self, draft: &mut Draft, conn: Conn, why: Why, reply: Reply)
        requires { HasNothing self.now draft.old }
        ensures { Drafts self.now (replied (using_up self.now conn) why reply) draft.new }
    {
        self.draft_reply(draft, why, reply, Change::Asks { conn });
    }

    /// A reply comes out beside the change.
    pub fn draft_reply(&self, draft: &mut Draft, why: Why, reply: Reply, change: Change)
        requires { HasNothing self.now draft.old }
        ensures { DraftsBy self.now draft.old change (λ after. replied after why reply) draft.new }
    {
        draft.put_reply(why, reply);
        draft.put_change(change);
    }

    /// The connection gets no reply before a copy is acknowledged, and these messages go out.
    pub fn draft_parked(&self, draft: &mut Draft, bodies: Vec<(NodeNo, Body)>, change: Change)
        requires { HasNothing self.now draft.old }
        ensures { DraftsBy self.now draft.old change
            (λ after. parking after bodies.items) draft.new }
    {
        draft.response = Response::Parked;
        draft.put_bodies(bodies);
        draft.put_change(change);
    }

    /// The same with messages.
    #[inline(always)]
    pub fn draft_reply_sending(
        &self,
        draft: &mut Draft,
        why: Why,
        reply: Reply,
        bodies: Vec<(NodeNo, Body)>,
        change: Change,
    )
        requires { HasNothing self.now draft.old }
        ensures { DraftsBy self.now draft.old change (replying why reply bodies.items) draft.new }
    {
        draft.put_reply(why, reply);
        draft.put_bodies(bodies);
        draft.put_change(change);
    }

    /// The same in that epoch.
    pub fn draft_reply_in(
        &self,
        draft: &mut Draft,
        why: Why,
        reply: Reply,
        bodies: Vec<(NodeNo, Body)>,
        epoch: Epoch,
        change: Change,
    )
        requires { HasNothing self.now draft.old }
        ensures { DraftsIn self.now epoch draft.old change
            (replying why reply bodies.items) draft.new }
    {
        draft.put_reply(why, reply);
        draft.put_bodies(bodies);
        draft.epoch = epoch;
        draft.put_change(change);
    }

    /// Connections that waited get replies, and other nodes messages.
    pub fn draft_releases(
        &self,
        draft: &mut Draft,
        released: Releases,
        bodies: Vec<(NodeNo, Body)>,
        change: Change,
    )
        requires { HasNothing self.now draft.old }
        ensures { DraftsBy self.now draft.old change (releasing released bodies.items) draft.new }
    {
        draft.released = released;
        draft.put_bodies(bodies);
        draft.put_change(change);
    }

    /// The node takes the place of its master, and these messages go out.
    pub fn draft_promotion(
        &self,
        draft: &mut Draft,
        bodies: Vec<(NodeNo, Body)>,
        succession: Succession,
    )
        requires { HasNothing self.now draft.old }
        ensures { Promotes self.now (promoting self.now bodies.items succession) draft.new }
    {
        draft.put_bodies(bodies);
        draft.succession = Some(succession);
    }

    /// The reply to each connection that waits so.
    pub fn releases(&self, which: &Waiting, reply: &Reply) -> Result<Releases, AllocError>
        ensures { IfOk result (λ released. released ≡ releases_of self.now which.now reply.now) }
    {
        let waiting = self.connections.waiting(self.alloc, which)?;
        Releases::to_all(self.alloc, waiting.as_slice(), reply)
    }
}

/// A list of this message, or of none.
pub fn listed(
    alloc: Global,
    body: Option<(NodeNo, Body)>,
) -> Result<Vec<(NodeNo, Body)>, AllocError>
    ensures { IfOk result (λ bodies. bodies.items ≡ bodies_of body) }
{
    let mut bodies = Vec::new(alloc);
    if let Some(body) = body {
        bodies.push(body)?;
    }
    Ok(bodies)
}
