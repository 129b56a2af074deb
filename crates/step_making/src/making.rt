//! A step that is made: its outputs and what is recorded of them first, then the change of the node.
ghost use Rattle.std.specs.Prelude.{◌≡◌, IfOk, OnOk, OnErr};
ghost use Rattle.node_parts.specs.Drafts.{stamped_draft, only_response};
ghost use Rattle.node_parts.specs.Making.{CanMake, IsApplied};
ghost use Rattle.node_step.specs.Plain.{HasNoReply};

use crate::applying::apply;
use node_parts::{Draft, NodeParts};
use node_step::{Messages, Outputs, Promoted, Recorder, Releases, Response};
use repl_stream::Stream;
use slot_store::SlotParts;
use std::alloc::AllocError;
use std::mem;

/// Makes a drafted step. Outputs and what `K` records of them are made before the node changes, so that a refusal leaves
/// the node as it was.
pub fn make<S: SlotParts, T: Stream, K: Recorder>(
    node: &mut NodeParts<S, T>,
    ticket: u64,
    draft: &mut Draft,
) -> Result<(Outputs, K::Record), AllocError>
    requires { CanMake node.old draft.old }
    ensures outputs { IfOk result (λ made. made.0 ≡ stamped_draft node.old ticket draft.old) }
    ensures state { OnOk result (IsApplied node.old draft.old node.new) }
    ensures recorded { IfOk result (λ made. K.recorded made.1 ≡ made.0) }
    ensures err { OnErr result (node.new ≡ node.old) }
{
    let made = stamp::<S, T, K>(node, ticket, draft)?;
    apply(node, draft)?;
    Ok(made)
}

// Takes what comes out of the draft, stamped, and what is recorded of it.
fn stamp<S: SlotParts, T: Stream, K: Recorder>(
    node: &NodeParts<S, T>,
    ticket: u64,
    draft: &mut Draft,
) -> Result<(Outputs, K::Record), AllocError>
    ensures outputs { IfOk result (λ made. made.0 ≡ stamped_draft node.now ticket draft.old) }
    ensures recorded { IfOk result (λ made. K.recorded made.1 ≡ made.0) }
    ensures epoch { draft.new.epoch ≡ draft.old.epoch }
    ensures written { draft.new.written ≡ draft.old.written }
    ensures plan { draft.new.plan ≡ draft.old.plan }
    ensures change { draft.new.change ≡ draft.old.change }
    ensures succession { draft.new.succession ≡ draft.old.succession }
{
    let promoted = node.promoted(&draft.succession)?;
    let bodies = mem::replace(&mut draft.bodies, Vec::new(node.alloc));
    let sent = Messages::stamped(node.alloc, node.number, ticket, draft.epoch, bodies)?;
    recorded::<K>(Outputs {
        ticket,
        response: mem::replace(&mut draft.response, Response::Nothing),
        released: mem::replace(&mut draft.released, Releases::new()),
        sent,
        promoted,
    })
}

// The outputs with their record.
fn recorded<K: Recorder>(outputs: Outputs) -> Result<(Outputs, K::Record), AllocError>
    ensures outputs { IfOk result (λ made. made.0 ≡ outputs) }
    ensures recorded { IfOk result (λ made. K.recorded made.1 ≡ made.0) }
{
    let record = K::record(&outputs)?;
    Ok((outputs, record))
}

/// The outputs of a step that gives this response and nothing else, which take no memory.
pub fn plain<K: Recorder>(ticket: u64, response: Response) -> (Outputs, K::Record)
    requires { HasNoReply response }
    ensures outputs { result.0 ≡ only_response ticket response }
    ensures recorded { K.recorded result.1 ≡ result.0 }
{
    let outputs = responded(ticket, response);
    let Ok(record) = K::record(&outputs) else {
        unreachable!();
    };
    (outputs, record)
}

// The outputs of a step that gives this response and nothing else.
fn responded(ticket: u64, response: Response) -> Outputs
    ensures { result ≡ only_response ticket response }
{
    Outputs {
        ticket,
        response,
        released: Releases::new(),
        sent: Messages::new(),
        promoted: Promoted::none(),
    }
}
