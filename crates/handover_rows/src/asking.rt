//! A replica asks its master to hand over.
ghost use Rattle.std.specs.Prelude.{◌≡◌, ◌++◌, OnOk};
ghost use Rattle.node_parts.specs.Drafts.{Drafts, HasNothing};
ghost use Rattle.node_parts.specs.Telling.{failover_on, pause_again};

use bus::{Body, ElectionBody};
use command_table::ErrorLine;
use connections::Conn;
use node_parts::{Change, Draft, NodeParts, done, listed};
use node_step::Why;
use repl_stream::Stream;
use slot_store::SlotParts;
use slot_table::NodeNo;
use std::alloc::AllocError;

/// CLUSTER FAILOVER: a replica asks its master to hand over. A master has none whose place it could take.
pub fn ask_master<S: SlotParts, T: Stream>(
    node: &NodeParts<S, T>,
    conn: Conn,
    draft: &mut Draft,
) -> Result<(), AllocError>
    requires { HasNothing node.now draft.old }
    ensures { OnOk result (Drafts node.now (failover_on node.now conn) draft.new) }
{
    let Some(master) = node.own_master() else {
        node.tell(draft, conn, Why::TakesOver, ErrorLine::NotReplica.reply());
        return Ok(());
    };
    let pause = Body::Election(ElectionBody::Pause(node.stream.id()));
    let bodies = listed(node.alloc, Some((master, pause)))?;
    let change = Change::Wishes { conn };
    node.draft_reply_sending(draft, Why::TakesOver, done(), bodies, change);
    Ok(())
}

/// Asks the master once more behind these messages, if the node asked it and has noted nothing yet.
pub fn append_pause<S: SlotParts, T: Stream>(
    node: &NodeParts<S, T>,
    bodies: &mut Vec<(NodeNo, Body)>,
) -> Result<(), AllocError>
    ensures { OnOk result (bodies.new.items ≡ bodies.old.items ++ pause_again node.now) }
{
    if !node.asks_master {
        return Ok(());
    }
    if let Some(master) = node.own_master() {
        bodies.push((
            master,
            Body::Election(ElectionBody::Pause(node.stream.id())),
        ))?;
    }
    Ok(())
}
