//! Requests: what they ask for.
ghost use Rattle.std.specs.Prelude.{◌≡◌, IfOk, OnOk, Err, Some};
ghost use Rattle.command_table.specs.Table.{command_of};
ghost use Rattle.connections.specs.Connections.{connection_at};
ghost use Rattle.keyspace.specs.Keyspace.{Keyspace};
ghost use Rattle.keyspace.specs.Plan.{committed};
ghost use Rattle.node_core.specs.Comes.{AnswersAndWrites, AnswersSo, DraftsStep, LacksNumber};
ghost use Rattle.node_parts.specs.Drafts.{HasNothing};
ghost use Rattle.step_fault.specs.declared.fault.StepFault.TheVariants.{Exhausted};
ghost use Rattle.node_step.specs.Numbers.{NoNumberLeft};
ghost use Rattle.node_step.specs.Streams.{is_written};

use crate::cluster_commands::answer_about_cluster;
use command::parse;
use command_table::Command;
use connections::{Conn, Connection};
use key_rows::answer_on_keys;
use node_parts::{Draft, NodeParts};
use node_step::{Event, StepFault, Why};
use repl_stream::Stream;
use replica_rows::add_request;
use resp_values::Words;
use slot_store::SlotParts;

/// Drafts the answer to a request. One on a connection that isn't open, or waits for a reply, is not answered.
#[inline(never)]
#[tactic(auto, using(crate::proofs::AnswerLemmas::answer_is_drafted))]
pub(crate) fn request<S: SlotParts, T: Stream>(
    node: &NodeParts<S, T>,
    conn: Conn,
    words: &Words,
    draft: &mut Draft,
) -> Result<(), StepFault>
    requires nothing { HasNothing node.now draft.old }
    requires plan { (keyspace : Keyspace) → committed keyspace draft.old.plan ≡ keyspace }
    ensures draft { OnOk result
        (DraftsStep node.now (Event.Request conn words.now) draft.new) }
    ensures exhausted { result ≡ Err Exhausted
        → NoNumberLeft node.now (Event.Request conn words.now) }
{
    let Some(connection) = node.connections.get(conn) else {
        return Ok(());
    };
    if let Some(_wait) = connection.waits {
        return Ok(());
    }
    answer(node, conn, connection, words, draft)
}

// Answers a connection that may ask, and records what the words write.
fn answer<S: SlotParts, T: Stream>(
    node: &NodeParts<S, T>,
    conn: Conn,
    connection: Connection,
    words: &Words,
    draft: &mut Draft,
) -> Result<(), StepFault>
    requires connection { connection_at node.now.connections conn ≡ Some connection }
    requires nothing { HasNothing node.now draft.old }
    requires plan { (keyspace : Keyspace) → committed keyspace draft.old.plan ≡ keyspace }
    ensures answer { OnOk result (AnswersAndWrites node.now conn words.now draft.new) }
    ensures exhausted { result ≡ Err Exhausted
        → NoNumberLeft node.now (Event.Request conn words.now) }
{
    // Reading them tells the proof that they keep the limits of a request.
    let _words = words.as_slice();
    let is_write = answer_words(node, conn, connection, words, draft)?;
    add_request(node, words, is_write, draft)?;
    Ok(())
}

// Answers the words of a connection that may ask, and tells whether they are a write.
#[tactic(auto, using(crate::proofs::AnswerLemmas::data_answered, crate::proofs::AnswerLemmas::fault_answered, crate::proofs::AnswerLemmas::data_written, crate::proofs::AnswerLemmas::cluster_not_written, crate::proofs::AnswerLemmas::fault_not_written))]
fn answer_words<S: SlotParts, T: Stream>(
    node: &NodeParts<S, T>,
    conn: Conn,
    connection: Connection,
    words: &Words,
    draft: &mut Draft,
) -> Result<bool, StepFault>
    requires connection { connection_at node.now.connections conn ≡ Some connection }
    requires nothing { HasNothing node.now draft.old }
    requires plan { (keyspace : Keyspace) → committed keyspace draft.old.plan ≡ keyspace }
    ensures write { IfOk result (λ is_write. is_write ≡ is_written (command_of words.now)) }
    ensures answer { OnOk result (AnswersSo node.now conn (command_of words.now) draft.new) }
    ensures exhausted { result ≡ Err Exhausted
        → LacksNumber node.now conn (command_of words.now) }
{
    let command = match parse(words) {
        Ok(Command::Data(command)) => command,
        Ok(Command::Cluster(command)) => {
            answer_about_cluster(node, conn, &command, draft)?;
            return Ok(false);
        }
        Err(fault) => {
            node.tell(draft, conn, Why::NotACommand(fault), fault.line().reply());
            return Ok(false);
        }
    };
    answer_on_keys(node, conn, connection, &command, draft)?;
    Ok(command.is_write())
}
