//! The slots that the nodes have.
use crate::json::{items_of, nodes_of, number_in};
use crate::wrong::{Halt, Place, wrong};
use key_slot::{Slot, SlotRange};
use serde_json::Value;
use std::alloc::Global;
use std::mem;

/// Halts at the first range that is none, or at the first slot that is listed for the second time.
pub(crate) fn check_slots(alloc: Global, cluster: &Value) -> Result<(), Halt> {
    let mut holders = Vec::from_elem(alloc, None, Slot::COUNT)?;
    for (number, node) in nodes_of(cluster).iter().enumerate() {
        for (at, ends) in items_of(node, "slots").iter().enumerate() {
            let range = read_range(alloc, ends, Place::Range(number, at))?;
            if let Some(twice) = list_range(&mut holders, number, range) {
                return Err(listed_twice(alloc, number, twice));
            }
        }
    }
    Ok(())
}

// A slot that is listed for the second time, and the number of the node that lists it first.
#[derive(Clone, Copy)]
struct Twice {
    slot: u16,
    holder: usize,
}

// Notes that the node lists the slots of the range, up to the first that was listed before, if there is one.
fn list_range(holders: &mut Vec<Option<usize>>, number: usize, range: SlotRange) -> Option<Twice> {
    for slot in range.first.get()..=range.last.get() {
        let before = holders
            .get_mut(usize::from(slot))
            .and_then(|holder| mem::replace(holder, Some(number)));
        if let Some(holder) = before {
            return Some(Twice { slot, holder });
        }
    }
    None
}

// What halts where the node lists such a slot.
fn listed_twice(alloc: Global, number: usize, twice: Twice) -> Halt {
    let Twice { slot, holder } = twice;
    let place = Place::NodeMember(number, "slots");
    if holder == number {
        return wrong(alloc, place, format_args!("slot {slot} is listed twice"));
    }
    let what = format_args!("slot {slot} is in nodes[{holder}].slots too");
    wrong(alloc, place, what)
}

fn read_range(alloc: Global, ends: &Value, place: Place<'_>) -> Result<SlotRange, Halt> {
    let first = read_slot(alloc, ends.get(0usize), place)?;
    let last = read_slot(alloc, ends.get(1usize), place)?;
    if first > last {
        let (first, last) = (first.get(), last.get());
        let what = format_args!("the range ends at {last}, before it begins at {first}");
        return Err(wrong(alloc, place, what));
    }
    Ok(SlotRange { first, last })
}

fn read_slot(alloc: Global, value: Option<&Value>, place: Place<'_>) -> Result<Slot, Halt> {
    let number = value.and_then(number_in).unwrap_or(-1);
    let slot = u16::try_from(number).ok().and_then(Slot::new);
    slot.ok_or_else(|| {
        let what = format_args!("{number} is no slot, because slots are from 0 to 16383");
        wrong(alloc, place, what)
    })
}
