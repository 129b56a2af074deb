//! What a node's claim makes of the entries of the slots.
ghost use Rattle.std.specs.Prelude.{◌≡◌, true, false, ◌<◌, ◌++◌, length, IfOk, OnOk, Some};
ghost use Rattle.std.specs.List.{Any};
ghost use Rattle.slot_table.specs.Table.{ChangesIn};
ghost use Rattle.slot_table.specs.Claims.{greater, slots_below, taken, merged, HasGreater, IsRising};
ghost use Rattle.slot_table.specs.Remembered.{LiesIn};

use crate::entry::{Epoch, SlotEntry};
use crate::node_no::NodeNo;
use crate::runs::{Run, slot_at};
use key_slot::{Slot, SlotRange};
use std::alloc::{AllocError, Global};

// The slots that the claim takes, in rising order. No run says anything new that lies in a known one.
pub(crate) fn taken_slots(
    alloc: Global,
    entries: &[Option<SlotEntry>],
    claim: &[Run<Epoch>],
    known: &[Run<Epoch>],
    owner: NodeNo,
) -> Result<Vec<Slot>, AllocError>
    requires whole { length entries.now ≡ 16384 }
    requires rising { IsRising claim.now }
    requires in_order { IsRising known.now }
    requires known { merged entries.now known.now owner ≡ entries.now }
    ensures { IfOk result (λ slots. slots.items ≡ taken entries.now claim.now owner) }
{
    let mut slots = Vec::new(alloc);
    let mut at = 0;
    for run in claim {
        if !is_in_known(known, &mut at, run) {
            let entry = SlotEntry {
                epoch: run.value,
                owner,
            };
            list_taken(&mut slots, entries, run.slots, &entry)?;
        }
    }
    Ok(slots)
}

// Adds the slots of the range that a claim with this entry takes to the list.
fn list_taken(
    slots: &mut Vec<Slot>,
    entries: &[Option<SlotEntry>],
    range: SlotRange,
    entry: &SlotEntry,
) -> Result<(), AllocError>
    requires { length entries.now ≡ 16384 }
    ensures first { range.first < 16384 }
    ensures last { range.last < 16384 }
    ensures listed { OnOk result (slots.new.items ≡ slots.old.items ++ slots_below entries.now entry.now range) }
{
    for at in range.first.index()..range.last.index() + 1 {
        if entry.is_above(entries[at]) {
            slots.push(slot_at(at))?;
        }
    }
    Ok(())
}

// Each slot has the greater of its entry and what is claimed. No run says anything new that lies in a known one. It tells
// whether an entry changed.
pub(crate) fn take_all(
    entries: &mut [Option<SlotEntry>],
    claim: &[Run<Epoch>],
    known: &[Run<Epoch>],
    owner: NodeNo,
) -> bool
    requires whole { length entries.old ≡ 16384 }
    requires rising { IsRising claim.now }
    requires in_order { IsRising known.now }
    requires known { merged entries.old known.now owner ≡ entries.old }
    ensures whole { length entries.new ≡ 16384 }
    ensures each { HasGreater entries.old claim.now owner entries.new }
    ensures stays { result ≡ false → entries.new ≡ entries.old }
{
    let mut changed = false;
    let mut at = 0;
    for run in claim {
        if !is_in_known(known, &mut at, run) {
            let entry = SlotEntry {
                epoch: run.value,
                owner,
            };
            changed |= take(entries, run.slots, &entry);
        }
    }
    changed
}

// Each slot of the range has the greater of its entry and the claim. It tells whether an entry changed.
fn take(entries: &mut [Option<SlotEntry>], slots: SlotRange, claim: &SlotEntry) -> bool
    requires { length entries.old ≡ 16384 }
    ensures whole { length entries.new ≡ 16384 }
    ensures each { ChangesIn slots (λ known. greater known (Some claim.now)) entries.old entries.new }
    ensures stays { result ≡ false → entries.new ≡ entries.old }
{
    let mut changed = false;
    for at in slots.first.index()..slots.last.index() + 1 {
        if claim.is_above(entries[at]) {
            entries[at] = Some(*claim);
            changed = true;
        }
    }
    changed
}

// Whether the run lies in a known one. It looks at the known runs from `at` on, and passes over those before the run for good.
fn is_in_known(known: &[Run<Epoch>], at: &mut usize, run: &Run<Epoch>) -> bool
    ensures first { run.now.slots.first < 16384 }
    ensures last { result ≡ true → run.now.slots.last < 16384 }
    ensures lies { result ≡ true → Any (LiesIn run.now) known.now }
{
    let first = run.slots.first.index();
    while *at < known.len() && known[*at].slots.last.index() < first {
        *at += 1;
    }
    *at < known.len() && lies_in(run, &known[*at])
}

// Whether all slots of the run are slots of the other one, in the same epoch.
fn lies_in(run: &Run<Epoch>, other: &Run<Epoch>) -> bool
    ensures last { run.now.slots.last < 16384 }
    ensures lies { result ≡ true → LiesIn run.now other.now }
{
    let last = run.slots.last.index();
    other.slots.first.index() <= run.slots.first.index()
        && last <= other.slots.last.index()
        && run.value == other.value
}
