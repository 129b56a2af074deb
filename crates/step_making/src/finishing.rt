//! What of a change takes no memory, which is done behind the rest.
ghost use Rattle.std.specs.Prelude.{◌≡◌, Some};
ghost use Rattle.migrate.specs.Acknowledging.{frozen_keys};
ghost use Rattle.node_parts.specs.Becomes.{Finishes, ending, freed, learning, losing, waiting_so, allowing, freezing};
ghost use Rattle.node_step.specs.Copies.{without};
ghost use Rattle.node_step.specs.Handovers.{begun_for, wishing};
ghost use Rattle.node_step.specs.Requests.{using_up, with_numbers};
ghost use Rattle.node_step.specs.Ticks.{older};
ghost use Rattle.slot_state.specs.Moves.{move_of};

use crate::clearing::clear_slots;
use bus::Handing;
use byte_string::ByteString;
use connections::{Conn, Wait, Waiting};
use key_slot::Slot;
use keyspace::Store;
use migrate::{count_copy, freeze, on_drained, on_lost, unfreeze};
use node_parts::{Change, NodeParts};
use redirect::Asking;
use repl_stream::Stream;
use slot_state::{CopyId, Keys};
use slot_store::SlotParts;
use slot_table::{Claim, Epoch, NodeNo, SlotEntry};
use std::mem;

/// Changes all that takes no memory.
pub(crate) fn finish<S: SlotParts, T: Stream>(node: &mut NodeParts<S, T>, change: &mut Change)
    ensures { Finishes node.old change.old node.new }
{
    match change {
        Change::Nothing => {}
        Change::Asks { conn }
        | Change::Keys { conn, .. }
        | Change::Imports { conn, .. }
        | Change::Migrates { conn, .. } => use_up(node, *conn),
        Change::Allows { conn, asking } => allow(node, *conn, *asking),
        Change::Numbers { conn } => number_asks(node, *conn),
        Change::Ends { conn, slot, epoch } => end_import(node, *conn, *slot, *epoch),
        Change::Parks { conn, wait } => park(node, *conn, *wait),
        Change::Freezes { conn, keys, wait } => freeze_keys(node, *conn, keys, *wait),
        Change::Installs { slot, copy, .. } => count_copy(&mut node.moves, *slot, *copy),
        Change::Frees { id } => delete_frozen(node, *id),
        Change::Notes {
            from,
            slot,
            number,
            drained,
        } => on_drained(&mut node.moves, *slot, *from, *number, *drained),
        Change::Loses { from, claim, lost } => lose_slots(node, *from, claim, lost.as_slice()),
        Change::Wishes { conn } => wish(node, *conn),
        Change::Pauses { replica } => pause(node, *replica),
        Change::Learns { handing } => learn(node, handing.take()),
        Change::Ages => age(node),
    }
}

// The next request of the connection has no ASKING before it.
fn use_up<S: SlotParts, T: Stream>(node: &mut NodeParts<S, T>, conn: Conn)
    ensures { node.new ≡ using_up node.old conn }
{
    node.connections.use_up(conn);
}

// The next request of the connection has this asking.
fn allow<S: SlotParts, T: Stream>(node: &mut NodeParts<S, T>, conn: Conn, asking: Asking)
    ensures { node.new ≡ allowing node.old conn asking }
{
    node.connections.use_up(conn);
    node.connections.allow(conn, asking);
}

// From now on the ASK lines of the connection name the move.
fn number_asks<S: SlotParts, T: Stream>(node: &mut NodeParts<S, T>, conn: Conn)
    ensures { node.new ≡ with_numbers (using_up node.old conn) conn }
{
    node.connections.use_up(conn);
    node.connections.number(conn);
}

// Takes the slot for its own.
fn end_import<S: SlotParts, T: Stream>(
    node: &mut NodeParts<S, T>,
    conn: Conn,
    slot: Slot,
    epoch: Epoch,
)
    ensures { node.new ≡ ending node.old conn slot epoch }
{
    let owner = node.number;
    node.table.set(slot, Some(SlotEntry { epoch, owner }));
    node.moves.end(slot);
    node.connections.use_up(conn);
}

// Has the connection wait for the acknowledgement of a copy.
fn park<S: SlotParts, T: Stream>(node: &mut NodeParts<S, T>, conn: Conn, wait: Wait)
    ensures { node.new ≡ waiting_so (using_up node.old conn) conn wait }
{
    node.connections.use_up(conn);
    node.connections.park(conn, wait);
}

// Freezes the keys, which are taken, and has the connection wait for the acknowledgement of their copy.
fn freeze_keys<S: SlotParts, T: Stream>(
    node: &mut NodeParts<S, T>,
    conn: Conn,
    keys: &mut Keys,
    wait: Wait,
)
    ensures { node.new ≡ waiting_so (freezing node.old conn wait keys.old) conn wait }
{
    let keys = mem::replace(keys, Keys::new(Vec::new(node.alloc)));
    let id = wait.id;
    freeze(&mut node.moves, id.slot, id.copy, keys);
    park(node, conn, wait);
}

// Deletes the frozen keys of the slot. Who waited for that waits no more.
fn delete_frozen<S: SlotParts, T: Stream>(node: &mut NodeParts<S, T>, id: CopyId)
    ensures { node.new ≡ freed node.old id (frozen_keys (move_of node.old.moves id.slot)) }
{
    if let Some(keys) = unfreeze(&mut node.moves, id.slot) {
        remove_all(&mut node.store, keys.as_slice());
        node.connections.free(&Waiting::For(id));
    }
}

// Takes the slots of a claim out.
fn lose_slots<S: SlotParts, T: Stream>(
    node: &mut NodeParts<S, T>,
    from: NodeNo,
    claim: &Claim,
    lost: &[Slot],
)
    ensures { node.new ≡ losing node.old claim.now from lost.now }
{
    node.table.take(from, claim);
    clear_slots(&mut node.store, lost);
    on_lost(&mut node.moves, lost);
    node.connections.free(&Waiting::In(lost));
}

// Asks the master to hand over, unless it is noted what that hands over.
fn wish<S: SlotParts, T: Stream>(node: &mut NodeParts<S, T>, conn: Conn)
    ensures { node.new ≡ wishing (using_up node.old conn) }
{
    node.asks_master = node.note.is_none();
    node.connections.use_up(conn);
}

// Hands the slots over to a replica.
fn pause<S: SlotParts, T: Stream>(node: &mut NodeParts<S, T>, replica: NodeNo)
    ensures { node.new ≡ record node.old { paused = Some replica } }
{
    node.paused = Some(replica);
}

// Notes what the master hands over.
fn learn<S: SlotParts, T: Stream>(node: &mut NodeParts<S, T>, handing: Option<Handing>)
    ensures { node.new ≡ learning node.old handing }
{
    if let Some(handing) = handing {
        node.election.begun = begun_for(node, &handing);
        node.asks_master = false;
        node.note = Some(handing);
    }
}

// How many ticks ago the last election for that began. Said again, it is the same handover.
fn begun_for<S: SlotParts, T: Stream>(node: &NodeParts<S, T>, handing: &Handing) -> Option<u32>
    ensures { result ≡ begun_for node.now.handover.note handing.now node.now.handover.begun }
{
    let noted = node.note.as_ref()?;
    if noted.stream == handing.stream && noted.offset == handing.offset {
        node.election.begun
    } else {
        None
    }
}

// Time passes: who has waited long enough waits no more.
fn age<S: SlotParts, T: Stream>(node: &mut NodeParts<S, T>)
    ensures { node.new ≡ older node.old }
{
    node.connections.free(&Waiting::Over);
    node.connections.age();
}

// Removes these keys.
fn remove_all<S: Store>(store: &mut S, keys: &[ByteString])
    ensures { S.contents store.new ≡ without (S.contents store.old) keys.now }
{
    for key in keys {
        store.remove(key);
    }
}
