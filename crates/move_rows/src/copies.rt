//! Copies of keys, and their acknowledgements, as they arrive.
ghost use Rattle.std.specs.Prelude.{◌≡◌, IfOk, OnOk};
ghost use Rattle.node_parts.specs.Drafts.{Drafts, HasNothing, bodies_of};
ghost use Rattle.migrate.specs.Sending.{is_among};
ghost use Rattle.move_rows.specs.LastKeys.{are_last, drained_by_ack};
ghost use Rattle.move_rows.specs.Copying.{PlansPairs, written_by_arrival, written_on_ack};
ghost use Rattle.node_step.specs.Copies.{ack_by, acknowledgement, arrival, noted};
ghost use Rattle.stream_requests.specs.Spelling.{Spells};

use bus::{Body, SlotsBody};
use byte_string::ByteString;
use connections::Waiting;
use key_slot::Slot;
use keyspace::{Pair, Plan, pairs_fit};
use migrate::{ArrivalVerdict, acknowledged_keys, arrival_verdict};
use node_parts::{Change, Draft, NodeParts, done, listed};
use node_step::Releases;
use repl_stream::Stream;
use slot_state::{CopyId, MoveNo};
use slot_store::{Part, SlotParts};
use slot_table::{Epoch, NodeNo};
use std::alloc::{AllocError, Global};
use stream_requests::{deletions_bytes, installed_bytes};

/// Installs a copy that arrives, or only acknowledges it again, and gives the requests that it writes.
pub(crate) fn take_copy<S: SlotParts, T: Stream>(
    node: &NodeParts<S, T>,
    from: NodeNo,
    id: CopyId,
    pairs: &[Pair],
    draft: &mut Draft,
) -> Result<Vec<u8>, AllocError>
    requires { HasNothing node.now draft.old }
    ensures draft { OnOk result (Drafts node.now (arrival node.now from id pairs.now) draft.new) }
    ensures written { Spells result (written_by_arrival node.now from id pairs.now) }
{
    let CopyId { slot, number, copy } = id;
    let fits = pairs_fit(pairs);
    let verdict = arrival_verdict(node.moves.get(slot), from, number, copy, fits);
    let word = acknowledgement(verdict, from, id);
    let bodies = listed(node.alloc, word)?;
    match verdict {
        ArrivalVerdict::Installs => {
            let plan = plan_of(node.alloc, pairs)?;
            let bytes = installed_bytes(node.alloc, &node.store, pairs)?;
            draft.plan = plan;
            let change = Change::Installs { slot, copy };
            node.draft_releases(draft, Releases::new(), bodies, change);
            Ok(bytes)
        }
        ArrivalVerdict::Repeats => {
            node.draft_releases(draft, Releases::new(), bodies, Change::Nothing);
            Ok(Vec::new(node.alloc))
        }
        ArrivalVerdict::Ignored => {
            node.draft_releases(draft, Releases::new(), bodies, Change::Nothing);
            Ok(Vec::new(node.alloc))
        }
    }
}

// The plan that puts all pairs. Long values share their bytes with the message.
fn plan_of(alloc: Global, pairs: &[Pair]) -> Result<Plan, AllocError>
    ensures { IfOk result (λ plan. PlansPairs pairs.now plan) }
{
    let mut copied = Vec::with_capacity(alloc, pairs.len())?;
    for pair in pairs {
        copied.push((pair.key().clone()?, pair.value().clone()?))?;
    }
    Ok(Plan::putting(alloc, copied))
}

/// Deletes the keys whose copy was installed, answers those who wait for that, and gives the requests that it writes.
pub(crate) fn take_ack<S: SlotParts, T: Stream>(
    node: &NodeParts<S, T>,
    from: NodeNo,
    id: CopyId,
    draft: &mut Draft,
) -> Result<Vec<u8>, AllocError>
    requires { HasNothing node.now draft.old }
    ensures draft { OnOk result (Drafts node.now (acknowledgement node.now from id) draft.new) }
    ensures written { Spells result (written_on_ack node.now from id) }
{
    let CopyId { slot, number, copy } = id;
    let Some(keys) = acknowledged_keys(node.moves.get(slot), from, number, copy) else {
        node.draft_change(draft, Change::Nothing);
        return Ok(Vec::new(node.alloc));
    };
    let bodies = listed(node.alloc, drained_by_ack(node, slot, keys.as_slice()))?;
    let waiting = Waiting::For(CopyId { slot, number, copy });
    let released = node.releases(&waiting, &done())?;
    let bytes = deletions_bytes(node.alloc, keys.as_slice())?;
    let change = Change::Frees {
        id: CopyId { slot, number, copy },
    };
    node.draft_releases(draft, released, bodies, change);
    Ok(bytes)
}

// The word that the slot is drained, where the keys are its last.
fn drained_by_ack<S: SlotParts, T: Stream>(
    node: &NodeParts<S, T>,
    place: Slot,
    keys: &[ByteString],
) -> Option<(NodeNo, Body)>
    ensures { bodies_of result ≡ drained_by_ack node.now place keys.now }
{
    if are_last(node, place, keys) {
        return node.drained(place);
    }
    None
}

// Whether the slot has keys, and none but these.
fn are_last<S: SlotParts, T: Stream>(
    node: &NodeParts<S, T>,
    place: Slot,
    keys: &[ByteString],
) -> bool
    ensures { result ≡ are_last node.now.keyspace place keys.now }
{
    node.store.count_in_slot(place) > 0 && node.store.part(place).has_only(keys)
}

/// Whether the key is one of these.
pub(crate) fn is_among(keys: &[ByteString], key: &ByteString) -> bool
    ensures { result ≡ is_among keys.now key.now }
{
    keys.iter().any(|other| other == key)
}

/// Notes that a slot is drained that comes to this node.
pub(crate) fn take_drained<S: SlotParts, T: Stream>(
    node: &NodeParts<S, T>,
    from: NodeNo,
    slot: Slot,
    number: MoveNo,
    drained: Epoch,
    draft: &mut Draft,
)
    requires { HasNothing node.now draft.old }
    ensures { Drafts node.now (noted node.now from slot number drained) draft.new }
{
    let change = Change::Notes {
        from,
        slot,
        number,
        drained,
    };
    node.draft_change(draft, change);
}

// The acknowledgement of a copy.
fn acknowledgement(verdict: ArrivalVerdict, to: NodeNo, id: CopyId) -> Option<(NodeNo, Body)>
    ensures { bodies_of result ≡ ack_by to id verdict }
{
    match verdict {
        ArrivalVerdict::Installs | ArrivalVerdict::Repeats => Some((
            to,
            Body::Slots(SlotsBody::Ack(id)),
        )),
        ArrivalVerdict::Ignored => None,
    }
}
