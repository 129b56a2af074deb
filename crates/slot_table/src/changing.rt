//! The runs of a claim once one slot has another epoch.
ghost use Rattle.std.specs.Prelude.{◌≡◌, ◌≤◌, IfOk, OnOk};
ghost use Rattle.slot_table.specs.CutRuns.{AddsRun, AddsSlot, ChangesValue, TakesOver, continues};

use crate::entry::Epoch;
use crate::runs::{Run, slots_between};
use key_slot::{Slot, SlotRange};
use std::alloc::{AllocError, Global};

// The longest runs of one epoch where the slot has that epoch, or none, and all others have what they have in these runs.
pub(crate) fn runs_with(
    alloc: Global,
    runs: &[Run<Epoch>],
    slot: Slot,
    epoch: Option<Epoch>,
) -> Result<Vec<Run<Epoch>>, AllocError>
    ensures { IfOk result (λ changed. ChangesValue slot epoch runs.now changed.items) }
{
    let mut changed = Vec::with_capacity(alloc, runs.len() + 2)?;
    push_parts(&mut changed, runs, 0, slot.index())?;
    push_slot(&mut changed, slot, epoch)?;
    push_parts(&mut changed, runs, slot.index() + 1, Slot::COUNT)?;
    Ok(changed)
}

// Adds the parts of the runs that lie from `start` to before `end`.
fn push_parts(
    changed: &mut Vec<Run<Epoch>>,
    runs: &[Run<Epoch>],
    start: usize,
    end: usize,
) -> Result<(), AllocError>
    requires some { start ≤ end }
    requires within { end ≤ 16384 }
    ensures { OnOk result (TakesOver runs.now start end changed.old.items changed.new.items) }
{
    for run in runs {
        let first = run.slots.first.index().max(start);
        let behind = (run.slots.last.index() + 1).min(end);
        if first < behind {
            let slots = slots_between(first, behind);
            let value = run.value;
            push_run(changed, Run { slots, value })?;
        }
    }
    Ok(())
}

// Adds the slot, if it has an epoch.
fn push_slot(
    changed: &mut Vec<Run<Epoch>>,
    slot: Slot,
    epoch: Option<Epoch>,
) -> Result<(), AllocError>
    ensures { OnOk result (AddsSlot slot epoch changed.old.items changed.new.items) }
{
    match epoch {
        None => Ok(()),
        Some(value) => {
            let slots = SlotRange {
                first: slot,
                last: slot,
            };
            push_run(changed, Run { slots, value })
        }
    }
}

// Adds the next slots with one epoch: to the last run, if they continue that, or as a run of their own.
fn push_run(runs: &mut Vec<Run<Epoch>>, next: Run<Epoch>) -> Result<(), AllocError>
    ensures { OnOk result (AddsRun next runs.old.items runs.new.items) }
{
    let many = runs.len();
    if many > 0 {
        let last = runs[many - 1];
        if continues(&next, &last) {
            let slots = SlotRange {
                first: last.slots.first,
                last: next.slots.last,
            };
            runs[many - 1] = Run {
                slots,
                value: next.value,
            };
            return Ok(());
        }
    }
    runs.push(next)?;
    Ok(())
}

// Whether a run begins right behind another one, and in the same epoch.
fn continues(next: &Run<Epoch>, run: &Run<Epoch>) -> bool
    ensures { result ≡ continues next.now run.now }
{
    run.slots.last.index() + 1 == next.slots.first.index() && run.value == next.value
}
