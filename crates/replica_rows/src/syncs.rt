//! A replica tells its master how far it is, and what a master answers.
ghost use Rattle.std.specs.Prelude.{◌≡◌, ◌++◌, IfOk, OnOk};
ghost use Rattle.node_parts.specs.Drafts.{Drafts, HasNothing, bodies_of};
ghost use Rattle.node_parts.specs.Telling.{own_sync};
ghost use Rattle.node_step.specs.Replicas.{synced};
ghost use Rattle.replica_rows.specs.Following.{answer_on, snapshot_of};

use bus::{Body, Snapshot, StreamBody, Sync, SyncAnswer};
use keyspace::Pairs;
use node_parts::{Change, Draft, NodeParts, listed};
use node_step::Releases;
use repl_stream::Stream;
use slot_pairs::pairs;
use slot_store::SlotParts;
use slot_table::NodeNo;
use std::alloc::AllocError;

/// A replica tells its master how much of its stream it received, behind these messages.
pub fn append_sync<S: SlotParts, T: Stream>(
    node: &NodeParts<S, T>,
    bodies: &mut Vec<(NodeNo, Body)>,
) -> Result<(), AllocError>
    ensures { OnOk result (bodies.new.items ≡ bodies.old.items ++ own_sync node.now) }
{
    if let Some(master) = node.own_master() {
        let sync = Sync {
            stream: node.stream.id(),
            received: node.stream.received(),
        };
        bodies.push((master, Body::Stream(StreamBody::Sync(sync))))?;
    }
    Ok(())
}

/// Answers what the sender of the sync misses. A replica answers nothing.
pub fn answer_sync<S: SlotParts, T: Stream>(
    node: &NodeParts<S, T>,
    from: NodeNo,
    sync: &Sync,
    draft: &mut Draft,
) -> Result<(), AllocError>
    requires { HasNothing node.now draft.old }
    ensures { OnOk result (Drafts node.now (synced node.now from sync.now) draft.new) }
{
    if node.is_replica() {
        node.draft_change(draft, Change::Nothing);
        return Ok(());
    }
    let bodies = listed(node.alloc, sync_answer(node, from, sync)?)?;
    node.draft_releases(draft, Releases::new(), bodies, Change::Nothing);
    Ok(())
}

fn sync_answer<S: SlotParts, T: Stream>(
    node: &NodeParts<S, T>,
    from: NodeNo,
    sync: &Sync,
) -> Result<Option<(NodeNo, Body)>, AllocError>
    ensures { IfOk result (λ body. bodies_of body ≡ answer_on node.now from sync.now) }
{
    match node.stream.answer(node.alloc, sync)? {
        SyncAnswer::UpToDate => Ok(None),
        SyncAnswer::Piece(piece) => Ok(Some((from, Body::Stream(StreamBody::Piece(piece))))),
        SyncAnswer::Snapshot => Ok(Some((
            from,
            Body::Stream(StreamBody::Snapshot(snapshot(node)?)),
        ))),
    }
}

// All that the node has at the end of its last whole write.
fn snapshot<S: SlotParts, T: Stream>(node: &NodeParts<S, T>) -> Result<Snapshot, AllocError>
    ensures { IfOk result (λ snapshot. snapshot ≡ snapshot_of node.now) }
{
    let pairs = pairs(node.alloc, &node.store)?;
    Ok(Snapshot {
        stream: node.stream.id(),
        offset: node.stream.offset(),
        pairs: Pairs::new(node.alloc, pairs)?,
    })
}
