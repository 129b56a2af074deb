//! What a step writes, in its draft.
ghost use Rattle.std.specs.Prelude.{◌≡◌, [], true, Err, OnOk};
ghost use Rattle.node_step.specs.Roles.{replicas_of};
ghost use Rattle.node_step.specs.State.{kept_in};
ghost use Rattle.resp_values.specs.Request.{request_spelling};
ghost use Rattle.step_fault.specs.declared.fault.StepFault.TheVariants.{Exhausted};
ghost use Rattle.replica_rows.specs.Adding.{Adds, NoOffsetBehind, NoOffsetForBytes, NoOffsetToWrite, RecordsBytes, RecordsWords};

use crate::pieces::{append_pieces, last_replica};
use crate::writes::is_recorded;
use node_parts::{Draft, NodeParts};
use repl_stream::{Stream, Written};
use resp_values::Words;
use slot_store::SlotParts;
use step_fault::StepFault;
use stream_requests::request_bytes;

/// Adds the bytes of requests, if there are any, to what the draft writes: they will stand behind the node's stream, and each replica gets them as a
/// piece.
#[tactic(auto, using(crate::proofs::AddingLemmas::records_none, crate::proofs::AddingLemmas::records_some, crate::proofs::AddingLemmas::no_offset))]
pub fn add_written<S: SlotParts, T: Stream>(
    node: &NodeParts<S, T>,
    bytes: Vec<u8>,
    draft: &mut Draft,
) -> Result<(), StepFault>
    ensures records { OnOk result (RecordsBytes node.now bytes.items draft.old draft.new) }
    ensures exhausted { result ≡ Err Exhausted → NoOffsetForBytes node.now bytes.items }
{
    if bytes.is_empty() {
        return Ok(());
    }
    add(node, bytes, draft)
}

/// The same of a request that was answered, if it is a write that was executed without an error: it is written in its own words.
#[tactic(auto, using(crate::proofs::AddingLemmas::request_not_written, crate::proofs::AddingLemmas::request_is_written, crate::proofs::AddingLemmas::no_offset_for_request))]
pub fn add_request<S: SlotParts, T: Stream>(
    node: &NodeParts<S, T>,
    words: &Words,
    is_write: bool,
    draft: &mut Draft,
) -> Result<(), StepFault>
    ensures records { OnOk result
        (RecordsWords node.now words.now is_write draft.old draft.new) }
    ensures exhausted { result ≡ Err Exhausted
        → NoOffsetToWrite node.now words.now is_write draft.old }
{
    if !is_recorded(is_write, &draft.response) {
        return Ok(());
    }
    if is_unread(node) {
        return count(node, words, draft);
    }
    let bytes = request_bytes(node.alloc, words.as_slice())?;
    add(node, bytes, draft)?;
    Ok(())
}

// Whether nobody reads what the node writes: it has no replica, and keeps no byte for one.
fn is_unread<S: SlotParts, T: Stream>(node: &NodeParts<S, T>) -> bool
    ensures kept { result ≡ true → kept_in node.now.config ≡ 0 }
    ensures none { result ≡ true → replicas_of node.now.masters node.now.number ≡ [] }
{
    node.keeps_none() && last_replica(node).is_none()
}

// Counts the bytes of a request that nobody reads.
#[tactic(auto, using(crate::proofs::PieceLemmas::none_sent))]
fn count<S: SlotParts, T: Stream>(
    node: &NodeParts<S, T>,
    words: &Words,
    draft: &mut Draft,
) -> Result<(), StepFault>
    requires kept { kept_in node.now.config ≡ 0 }
    requires none { replicas_of node.now.masters node.now.number ≡ [] }
    ensures ok { OnOk result (Adds node.now (request_spelling words.now) draft.old draft.new) }
    ensures exhausted { result ≡ Err Exhausted
        → NoOffsetBehind node.now (request_spelling words.now) }
{
    let counted = Written::counted(words);
    if counted.len() as u64 > u64::MAX - node.stream.received() {
        return Err(StepFault::Exhausted);
    }
    draft.written = counted;
    Ok(())
}

// Adds bytes behind which the stream has an offset.
fn add<S: SlotParts, T: Stream>(
    node: &NodeParts<S, T>,
    bytes: Vec<u8>,
    draft: &mut Draft,
) -> Result<(), StepFault>
    ensures ok { OnOk result (Adds node.now bytes.items draft.old draft.new) }
    ensures exhausted { result ≡ Err Exhausted → NoOffsetBehind node.now bytes.items }
{
    if bytes.len() as u64 > u64::MAX - node.stream.received() {
        return Err(StepFault::Exhausted);
    }
    let written = Written::spelled(bytes)?;
    append_pieces(node, &written, &mut draft.bodies)?;
    draft.written = written;
    Ok(())
}
