//! Runs of neighbouring slots with one value: their owner, or the epoch in which a node claims them.
ghost use Rattle.std.specs.Prelude.{◌≡◌, ◌≢◌, ◌<◌, ◌≤◌, ◌-◌, ℕ, length, IfOk, Some, None, Option, refl};
ghost use Rattle.std.proofs.lemmas.Bool.Decides.{Decides-eqb};
ghost use Rattle.std.specs.Bool.{Decides};
ghost use Rattle.slot_table.specs.Table.{entry_at, owner_in, epoch_in, values_in};
ghost use Rattle.slot_table.specs.Runs.{AreRunsOf, HaveValue};

use crate::entry::{Epoch, SlotEntry};
use crate::node_no::NodeNo;
use key_slot::{Slot, SlotRange};
use std::alloc::{AllocError, Global};

/// Neighbouring slots, and the value that they share.
#[derive(Clone, Copy, PartialEq, Eq, Debug)]
pub struct Run<T> {
    /// The slots.
    pub slots: SlotRange,
    /// What each of these slots has.
    pub value: T,
}

/// A value that the entry of a slot may have.
pub(crate) trait EntryValue: Copy {
    ghost use Rattle.slot_table.specs.declared.entry.SlotEntry.{SlotEntry};

    /// What it is.
    type Value: Copy + Eq;

    ghost value_in: { Self → Option SlotEntry → Option Self.Value };

    /// The value in that entry, if it has one.
    fn value_in(self, entry: Option<SlotEntry>) -> Option<Self::Value>
        ensures { result ≡ value_in self entry };

    // A slot without an entry has no value.
    ghost absent: { (wanted : Self) → value_in wanted None ≡ None };

    // `==` holds exactly of a value and itself.
    ghost exact: { (value other : Self.Value) → Decides (Self.Value.eq value other) (value ≡ other) };
}

/// The owner of the slot.
#[derive(Clone, Copy)]
pub(crate) struct Owner;

impl EntryValue for Owner {
    type Value = NodeNo;

    ghost value_in = { λ _ entry. owner_in entry };

    fn value_in(self, entry: Option<SlotEntry>) -> Option<NodeNo> {
        Some(entry?.owner)
    }

    ghost absent = { λ _. refl };

    ghost exact = { Decides-eqb };
}

/// The epoch of the slot, if it is this node's.
#[derive(Clone, Copy)]
pub(crate) struct ClaimOf(pub(crate) NodeNo);

impl EntryValue for ClaimOf {
    type Value = Epoch;

    ghost value_in = { λ wanted entry. epoch_in wanted.0 entry };

    fn value_in(self, entry: Option<SlotEntry>) -> Option<Epoch> {
        let entry = entry?;
        if entry.owner == self.0 {
            Some(entry.epoch)
        } else {
            None
        }
    }

    ghost absent = { λ _. refl };

    ghost exact = { Decides-eqb };
}

/// All longest runs of slots with one value, in rising order.
pub(crate) fn runs_of<V: EntryValue>(
    alloc: Global,
    entries: &[Option<SlotEntry>],
    wanted: V,
) -> Result<Vec<Run<V::Value>>, AllocError>
    requires { length entries.now ≡ 16384 }
    ensures { IfOk result (λ runs. AreRunsOf (values_in (V.value_in wanted) entries.now) runs.items) }
{
    let mut runs = Vec::new(alloc);
    let mut at = 0;
    while at < entries.len() {
        match wanted.value_in(entries[at]) {
            None => at += 1,
            Some(value) => {
                let end = end_of(entries, at, wanted, value);
                let slots = slots_between(at, end);
                runs.push(Run { slots, value })?;
                at = end;
            }
        }
    }
    Ok(runs)
}

// The first index behind `from` whose slot doesn't have the value.
fn end_of<V: EntryValue>(
    entries: &[Option<SlotEntry>],
    from: usize,
    wanted: V,
    value: V::Value,
) -> usize
    requires within { from < length entries.now }
    requires has { V.value_in wanted (entry_at entries.now from) ≡ Some value }
    ensures behind { from < result }
    ensures within { result ≤ length entries.now }
    ensures has { HaveValue (values_in (V.value_in wanted) entries.now) value from result }
    ensures stops { V.value_in wanted (entry_at entries.now result) ≢ Some value }
{
    let mut end = from + 1;
    while end < entries.len() && has(entries[end], wanted, value) {
        end += 1;
    }
    end
}

fn has<V: EntryValue>(entry: Option<SlotEntry>, wanted: V, value: V::Value) -> bool
    ensures { Decides result (V.value_in wanted entry ≡ Some value) }
{
    wanted.value_in(entry) == Some(value)
}

// The slots from the one at `from` to the one before `end`.
pub(crate) fn slots_between(from: usize, end: usize) -> SlotRange
    requires some { from < end }
    requires within { end ≤ 16384 }
    ensures { result ≡ record { first = from; last = end - 1 } }
{
    SlotRange {
        first: slot_at(from),
        last: slot_at(end - 1),
    }
}

pub(crate) fn slot_at(index: usize) -> Slot
    requires { index < 16384 }
    ensures { result ≡ index }
{
    match Slot::new(index as u16) {
        Some(slot) => slot,
        None => unreachable!(),
    }
}
