//! Commands about the cluster: reports, orders, and what a connection tells of its next requests.
ghost use Rattle.std.specs.Prelude.{◌≡◌, IsTrue, OnOk, Err, Ok};
ghost use Rattle.command_table.specs.declared.command.Command.TheVariants.{Cluster};
ghost use Rattle.node_core.specs.Comes.{AnswersSo, LacksNumber, told};
ghost use Rattle.node_parts.specs.Drafts.{Drafts, HasNothing};
ghost use Rattle.node_parts.specs.Becomes.{allowing};
ghost use Rattle.report_rows.specs.Questions.{is_question};
ghost use Rattle.step_fault.specs.declared.fault.StepFault.TheVariants.{Exhausted};
ghost use Rattle.node_step.specs.Requests.{asking_for, using_up, with_numbers};

use command_table::ClusterCommand;
use connections::Conn;
use handover_rows::ask_master;
use key_slot::MoveNo;
use move_rows::migrate_keys;
use node_parts::{Change, Draft, NodeParts, done};
use node_step::{StepFault, Why};
use order_rows::{node_at, node_with_id, obey};
use redirect::Asking;
use repl_stream::Stream;
use report_rows::report;
use slot_state::Order;
use slot_store::SlotParts;
use std::alloc::AllocError;

/// Answers a command about the cluster.
#[inline(never)]
#[tactic(auto, using(crate::proofs::AnswerLemmas::numbered_answered, crate::proofs::AnswerLemmas::failover_answered))]
pub(crate) fn answer_about_cluster<S: SlotParts, T: Stream>(
    node: &NodeParts<S, T>,
    conn: Conn,
    command: &ClusterCommand,
    draft: &mut Draft,
) -> Result<(), StepFault>
    requires { HasNothing node.now draft.old }
    ensures answer { OnOk result (AnswersSo node.now conn (Ok (Cluster command.now)) draft.new) }
    ensures exhausted { result ≡ Err Exhausted
        → LacksNumber node.now conn (Ok (Cluster command.now)) }
{
    match command {
        ClusterCommand::SetSlot {
            slot,
            order,
            node: id,
            number,
        } => {
            let named = Order {
                slot: *slot,
                node: node_with_id(&node.config, id.as_slice()),
                number: *number,
            };
            Ok(obey(node, conn, *order, named, draft)?)
        }
        ClusterCommand::Migrate {
            host,
            port,
            keys,
            timeout,
        } => {
            let target = node_at(&node.config, host.as_slice(), *port);
            Ok(migrate_keys(node, conn, target, keys.as_slice(), *timeout, draft)?)
        }
        ClusterCommand::Numbered => {
            number_asks(node, conn, draft);
            Ok(())
        }
        ClusterCommand::Failover => Ok(ask_master(node, conn, draft)?),
        ClusterCommand::Asking { number } => {
            allow(node, conn, asking_for(*number), draft);
            Ok(())
        }
        ClusterCommand::KeySlot { .. }
        | ClusterCommand::MyId
        | ClusterCommand::Slots
        | ClusterCommand::CountKeysInSlot { .. }
        | ClusterCommand::GetKeysInSlot { .. }
        | ClusterCommand::SlotState { .. } => Ok(answer_question(node, conn, command, draft)?),
    }
}

// Answers a question about the cluster.
#[tactic(auto, using(crate::proofs::AnswerLemmas::question_answered))]
fn answer_question<S: SlotParts, T: Stream>(
    node: &NodeParts<S, T>,
    conn: Conn,
    question: &ClusterCommand,
    draft: &mut Draft,
) -> Result<(), AllocError>
    requires question { IsTrue (is_question question.now) }
    requires nothing { HasNothing node.now draft.old }
    ensures answer { OnOk result (AnswersSo node.now conn (Ok (Cluster question.now)) draft.new) }
{
    let reply = report(node, question)?;
    node.tell(draft, conn, Why::Reported, reply);
    Ok(())
}

// From now on the ASK lines of the connection name the move.
fn number_asks<S: SlotParts, T: Stream>(node: &NodeParts<S, T>, conn: Conn, draft: &mut Draft)
    requires { HasNothing node.now draft.old }
    ensures { Drafts node.now (told (with_numbers (using_up node.now conn) conn)) draft.new }
{
    node.draft_reply(draft, Why::Told, done(), Change::Numbers { conn });
}

// The next request of the connection may be served in a slot that comes to this node.
fn allow<S: SlotParts, T: Stream>(
    node: &NodeParts<S, T>,
    conn: Conn,
    asking: Asking,
    draft: &mut Draft,
)
    requires { HasNothing node.now draft.old }
    ensures { Drafts node.now (told (allowing node.now conn asking)) draft.new }
{
    node.draft_reply(draft, Why::Told, done(), Change::Allows { conn, asking });
}

fn asking_for(number: Option<MoveNo>) -> Asking
    ensures { result ≡ asking_for number }
{
    match number {
        None => Asking::Any,
        Some(number) => Asking::Of(number),
    }
}
