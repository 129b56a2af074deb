//! Which slots each master has, as a node answers CLUSTER SLOTS.

use crate::resharding::count_of;
use byte_string::ByteString;
use cluster_config::NodeId;
use key_slot::{Slot, SlotRange};
use redirection::Address;
use resharder::{ENTRY_LEN, address_at};
use resp2::{Element, Reply};
use std::alloc::{AllocError, Global};

/// Slots in a row that one master has.
#[derive(Drop)]
pub(crate) struct SlotRun {
    /// The slots.
    pub(crate) slots: SlotRange,
    /// The id of the master.
    pub(crate) master: ByteString,
    /// Where it is reached.
    pub(crate) address: Address,
}

impl SlotRun {
    fn is_of(&self, node: &NodeId) -> bool {
        self.master.as_slice() == node.bytes().as_slice()
    }

    fn has(&self, slot: Slot) -> bool {
        self.slots.first.get() <= slot.get() && slot.get() <= self.slots.last.get()
    }

    fn is_same(&self, other: &SlotRun) -> bool {
        self.slots == other.slots && self.master == other.master && self.address == other.address
    }
}

/// Which slots each master has.
#[derive(Drop)]
pub(crate) struct SlotMap {
    // By rising slots.
    runs: Vec<SlotRun>,
}

impl SlotMap {
    /// What the reply says of that, or None where it says none of it.
    pub(crate) fn read(alloc: Global, reply: &Reply) -> Result<Option<SlotMap>, AllocError> {
        let Reply::Array(array) = reply else {
            return Ok(None);
        };
        match array.as_slice() {
            [Element::Array(_), elements @ ..] => map_in(alloc, elements),
            _ => Ok(None),
        }
    }

    /// All slots that some master has.
    pub(crate) fn runs(&self) -> &[SlotRun] {
        self.runs.as_slice()
    }

    /// Whether the node is a master with slots.
    pub(crate) fn lists(&self, node: &NodeId) -> bool {
        self.runs.iter().any(|run| run.is_of(node))
    }

    /// How many slots the node has.
    pub(crate) fn count_slots(&self, node: &NodeId) -> u64 {
        let mut count = 0u64;
        for run in self.runs.iter() {
            if run.is_of(node) {
                count = count.saturating_add(count_of(&run.slots));
            }
        }
        count
    }

    /// The id of the master that had the first slot which the node has by the other map, if some master had it.
    pub(crate) fn former_master(
        &self,
        node: &NodeId,
        after: &SlotMap,
    ) -> Result<Option<ByteString>, AllocError> {
        match after.first_slot_of(node) {
            Some(slot) => self.master_of(slot),
            None => Ok(None),
        }
    }

    fn first_slot_of(&self, node: &NodeId) -> Option<Slot> {
        for run in self.runs.iter() {
            if run.is_of(node) {
                return Some(run.slots.first);
            }
        }
        None
    }

    // The id of the master of the slot, if it has one.
    fn master_of(&self, slot: Slot) -> Result<Option<ByteString>, AllocError> {
        for run in self.runs.iter() {
            if run.has(slot) {
                return Ok(Some(run.master.clone()?));
            }
        }
        Ok(None)
    }

    /// Where the masters with slots are reached.
    pub(crate) fn addresses(&self, alloc: Global) -> Result<Vec<Address>, AllocError> {
        let mut addresses = Vec::new(alloc);
        for run in self.runs.iter() {
            if !stands_in(addresses.as_slice(), &run.address) {
                let address = run.address.clone()?;
                addresses.push(address).map_err(AllocError::from)?;
            }
        }
        Ok(addresses)
    }

    /// Whether the other map is this one.
    pub(crate) fn is_same(&self, other: &SlotMap) -> bool {
        if self.runs.len() != other.runs.len() {
            return false;
        }
        for (place, run) in self.runs.iter().enumerate() {
            match other.runs.get(place) {
                Some(another) if run.is_same(another) => {}
                _ => return false,
            }
        }
        true
    }
}

fn stands_in(addresses: &[Address], address: &Address) -> bool {
    addresses.iter().any(|known| *known == *address)
}

fn map_in(alloc: Global, elements: &[Element]) -> Result<Option<SlotMap>, AllocError> {
    let mut runs = Vec::new(alloc);
    for entry in elements.chunks(ENTRY_LEN) {
        let Some(run) = run_in(alloc, entry)? else {
            return Ok(None);
        };
        runs.push(run).map_err(AllocError::from)?;
    }
    Ok(Some(SlotMap { runs }))
}

// The slots and the master of an entry.
fn run_in(alloc: Global, entry: &[Element]) -> Result<Option<SlotRun>, AllocError> {
    match entry {
        [
            Element::Array(_),
            Element::Integer(first),
            Element::Integer(last),
            Element::Array(_),
            Element::Bulk(host),
            Element::Integer(port),
            Element::Bulk(id),
        ] => {
            let Some(slots) = range_of(*first, *last) else {
                return Ok(None);
            };
            let Some(address) = address_at(alloc, host, *port)? else {
                return Ok(None);
            };
            Ok(Some(SlotRun {
                slots,
                master: id.clone()?,
                address,
            }))
        }
        _ => Ok(None),
    }
}

fn range_of(first: i64, last: i64) -> Option<SlotRange> {
    let first = slot_of(first)?;
    let last = slot_of(last)?;
    if first.get() > last.get() {
        return None;
    }
    Some(SlotRange { first, last })
}

fn slot_of(number: i64) -> Option<Slot> {
    Slot::new(u16::try_from(number).ok()?)
}
