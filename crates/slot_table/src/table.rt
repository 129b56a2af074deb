//! The table of all slots with their owners.
ghost use Rattle.std.specs.Prelude.{◌≡◌, ◌<◌, ℕ, true, replicate, length, IfOk, IfSome, OnOk, OnErr, Some, None, slice_set, if◌then◌else◌};
ghost use Rattle.slot_table.specs.Table.{entry_at, owner_at, claim_at, entry_at_start, first_table, ChangesIn, HasFirstEntries};
ghost use Rattle.slot_table.specs.Runs.{runs_of};
ghost use Rattle.slot_table.specs.Claims.{is_taken, merged, changed};
ghost use Rattle.slot_table.specs.Remembered.{claim_with, IsKept, KnownRuns};

use crate::changing::runs_with;
use crate::claim::Claim;
use crate::entry::{Epoch, SlotEntry};
use crate::merging::{take_all, taken_slots};
use crate::node_no::NodeNo;
use crate::runs::{ClaimOf, EntryValue, Owner, Run, runs_of};
use key_slot::{Slot, SlotRange};
use std::alloc::{AllocError, Global};
use std::marker::Model;

/// For each slot its owner and the epoch of the owner's claim, or that the slot has no owner.
#[derive(Debug, Drop)]
pub struct SlotTable {
    entries: Vec<Option<SlotEntry>>,
    // The claim of a node, if it was asked for and the table has followed each change of an entry since.
    kept: Option<(NodeNo, Claim)>,
    // Of each node the last claim that was taken over. It says nothing new any more.
    known: Vec<Option<Claim>>,
}

impl Model for SlotTable {
    ghost use Rattle.std.specs.Prelude.{◌≡◌, List, Option, length};
    ghost use Rattle.slot_table.specs.declared.entry.SlotEntry.{SlotEntry};
    ghost use Rattle.slot_table.specs.Remembered.{IsWhole};

    ghost Value = { List (Option SlotEntry) };

    ghost view = { λ table. table.entries.items };

    ghost invariant = { λ table. IsWhole table.entries.items table.kept table.known.items };
}

impl SlotTable {
    /// The table at the start of a cluster: the slots of each run have that owner, in the first epoch.
    ///
    /// A slot in several runs goes to the first of them, and a slot in no run has no owner.
    pub fn new(alloc: Global, owners: &[Run<NodeNo>]) -> Result<SlotTable, AllocError>
        ensures entries { IfOk result (HasFirstEntries owners.now) }
        ensures whole { IfOk result (λ table. length table ≡ 16384) }
        ensures value { IfOk result (λ table. table ≡ first_table owners.now) }
    {
        let entries = first_entries(alloc, owners)?;
        let known = none_known(alloc)?;
        Ok(SlotTable {
            entries,
            kept: None,
            known,
        })
    }

    /// What is known of the owner of the slot. It takes no memory and one look into the table.
    pub fn entry(&self, slot: Slot) -> Option<SlotEntry>
        ensures { result ≡ entry_at self.now slot }
    {
        self.entries[slot.index()]
    }

    /// The owner of the slot, if it has one. It takes no memory and one look into the table.
    pub fn owner(&self, slot: Slot) -> Option<NodeNo>
        ensures { result ≡ owner_at self.now slot }
    {
        Some(self.entry(slot)?.owner)
    }

    /// The longest runs of neighbouring slots with one owner, in rising order. No run has a slot without an owner.
    pub fn runs(&self, alloc: Global) -> Result<Vec<Run<NodeNo>>, AllocError>
        ensures { IfOk result (λ runs. runs.items ≡ runs_of (owner_at self.now)) }
    {
        runs_of(alloc, self.entries.as_slice(), Owner)
    }

    /// All slots of the node with their epochs, as the longest runs of one epoch, in rising order.
    ///
    /// It looks at all slots, but for a claim that [`keep_claim_of`](SlotTable::keep_claim_of) keeps.
    pub fn claim_of(&self, alloc: Global, node: NodeNo) -> Result<Claim, AllocError>
        ensures { IfOk result (λ claim. claim ≡ runs_of (claim_at self.now node)) }
    {
        match self.kept_claim(node) {
            Some(claim) => claim.clone(),
            None => self.made_claim(alloc, node),
        }
    }

    /// Keeps the claim of the node until a claim that is taken over changes an entry. Meanwhile [`claim_of`](SlotTable::claim_of)
    /// shares it, and looks at no slot.
    ///
    /// A table keeps the claim of one node.
    pub fn keep_claim_of(&mut self, alloc: Global, node: NodeNo) -> Result<(), AllocError>
        ensures { self.new ≡ self.old }
    {
        if self.kept_claim(node).is_none() {
            let claim = self.made_claim(alloc, node)?;
            self.kept = Some((node, claim));
        }
        Ok(())
    }

    // The claim of the node, if it is kept.
    fn kept_claim(&self, node: NodeNo) -> Option<&Claim>
        ensures { IfSome result (λ claim. claim.now ≡ runs_of (claim_at self.now node)) }
    {
        let (of, claim) = self.kept.as_ref()?;
        if *of == node { Some(claim) } else { None }
    }

    /// The claim of the entry's owner once the slot has that entry.
    ///
    /// Where the claim of the owner is kept, it looks at the runs of that alone, and otherwise at all slots.
    pub fn claim_with(
        &self,
        alloc: Global,
        slot: Slot,
        entry: SlotEntry,
    ) -> Result<Claim, AllocError>
        ensures { IfOk result (λ claim. claim ≡ claim_with self.now slot (Some entry) entry.owner) }
    {
        let claim = self.claim_of(alloc, entry.owner)?;
        self.changed_claim(alloc, entry.owner, &claim, slot, Some(entry))
    }

    // The claim of the node once the slot has that entry, from the one that the node has.
    fn changed_claim(
        &self,
        alloc: Global,
        node: NodeNo,
        claim: &Claim,
        slot: Slot,
        entry: Option<SlotEntry>,
    ) -> Result<Claim, AllocError>
        requires { claim.now ≡ runs_of (claim_at self.now node) }
        ensures { IfOk result (λ changed. changed ≡ claim_with self.now slot entry node) }
    {
        let before = ClaimOf(node).value_in(self.entries[slot.index()]);
        let epoch = ClaimOf(node).value_in(entry);
        if before == epoch {
            return claim.clone();
        }
        let runs = runs_with(alloc, claim.runs(), slot, epoch)?;
        Claim::new(alloc, runs)
    }

    // What is kept once the slot has that entry. It is nothing where that takes memory that isn't there.
    fn kept_with(&self, slot: Slot, entry: &Option<SlotEntry>) -> Option<(NodeNo, Claim)>
        ensures { IsKept (slice_set self.now slot entry.now) result }
    {
        let (of, claim) = self.kept.as_ref()?;
        let alloc = *self.entries.allocator();
        match self.changed_claim(alloc, *of, claim, slot, *entry) {
            Ok(changed) => Some((*of, changed)),
            Err(_) => None,
        }
    }

    // The claim of the node, from all entries.
    fn made_claim(&self, alloc: Global, node: NodeNo) -> Result<Claim, AllocError>
        ensures { IfOk result (λ claim. claim ≡ runs_of (claim_at self.now node)) }
    {
        let runs = runs_of(alloc, self.entries.as_slice(), ClaimOf(node))?;
        let claim = Claim::new(alloc, runs)?;
        Ok(claim)
    }

    /// Takes over what the owner claims wherever that counts above the entry of the slot, and gives the slots whose
    /// entry changed, in rising order.
    ///
    /// Of two claims to a slot that of the greater epoch counts, and of two in one epoch that of the greater owner.
    /// A refusal of memory leaves the table as it was. It looks at the slots of the claim alone, but for its runs that lie in
    /// runs of the last claim of the owner that was taken over, in the same epoch.
    pub fn merge(
        &mut self,
        alloc: Global,
        owner: NodeNo,
        claim: &Claim,
    ) -> Result<Vec<Slot>, AllocError>
        ensures table { OnOk result (self.new ≡ merged self.old claim.now owner) }
        ensures changed { IfOk result (λ slots. slots.items ≡ changed self.old self.new) }
        ensures err { OnErr result (self.new ≡ self.old) }
    {
        let slots = self.changes(alloc, owner, claim)?;
        self.take(owner, claim);
        Ok(slots)
    }

    /// The slots whose entry [`merge`](SlotTable::merge) would change, in rising order.
    pub fn changes(
        &self,
        alloc: Global,
        owner: NodeNo,
        claim: &Claim,
    ) -> Result<Vec<Slot>, AllocError>
        ensures { IfOk result (λ slots. slots.items ≡ changed self.now (merged self.now claim.now owner)) }
    {
        if self.is_known(owner, claim) {
            return Ok(Vec::new(alloc));
        }
        let known = runs_in(&self.known[owner.index()]);
        taken_slots(alloc, self.entries.as_slice(), claim.runs(), known, owner)
    }

    /// Takes over what the owner claims, as [`merge`](SlotTable::merge) does. It takes no memory.
    pub fn take(&mut self, owner: NodeNo, claim: &Claim)
        ensures { self.new ≡ merged self.old claim.now owner }
    {
        if self.is_known(owner, claim) {
            return;
        }
        let known = runs_in(&self.known[owner.index()]);
        let changed = take_all(self.entries.as_mut_slice(), claim.runs(), known, owner);
        keep_unless(&mut self.kept, changed);
        self.known[owner.index()] = shared(claim);
    }

    // Whether the claim is the last one of the owner that was taken over.
    fn is_known(&self, owner: NodeNo, claim: &Claim) -> bool
        ensures { result ≡ true → merged self.now claim.now owner ≡ self.now }
    {
        match &self.known[owner.index()] {
            Some(known) => are_same(known.runs(), claim.runs()),
            None => false,
        }
    }

    /// Gives the slot this entry, or none.
    ///
    /// It takes memory for the runs of a kept claim that changes. Where that isn't there, the claim isn't kept any more.
    pub fn set(&mut self, slot: Slot, entry: Option<SlotEntry>)
        ensures { self.new ≡ slice_set self.old slot entry }
    {
        let kept = self.kept_with(slot, &entry);
        let above = self.is_above(slot, &entry);
        self.entries[slot.index()] = entry;
        self.kept = kept;
        forget_unless(&mut self.known, above);
    }

    // Whether the entry counts above what the table has of the slot.
    fn is_above(&self, slot: Slot, entry: &Option<SlotEntry>) -> bool
        ensures { result ≡ is_taken (entry_at self.now slot) entry.now }
    {
        match entry {
            None => false,
            Some(entry) => entry.is_above(self.entry(slot)),
        }
    }
}

impl Clone for SlotTable {
    ghost is_clone = { λ table copy. copy ≡ table };

    /// A copy takes memory for all entries.
    fn clone(&self) -> Result<SlotTable, AllocError> {
        let entries = self.entries.clone()?;
        let known = none_known(*self.entries.allocator())?;
        Ok(SlotTable {
            entries,
            kept: None,
            known,
        })
    }
}

// No claim of any node is known.
fn none_known(alloc: Global) -> Result<Vec<Option<Claim>>, AllocError>
    ensures { IfOk result (λ known. known.items ≡ replicate 16 None) }
{
    Vec::from_elem(alloc, None, NodeNo::COUNT)
}

// What is kept stays so, unless an entry changed.
fn keep_unless(kept: &mut Option<(NodeNo, Claim)>, changed: bool)
    ensures { kept.new ≡ (if changed then None else kept.old) }
{
    if changed {
        *kept = None;
    }
}

// No claim of any node is known any more, unless all of them are right.
fn forget_unless(known: &mut Vec<Option<Claim>>, right: bool)
    ensures { known.new.items ≡ (if right then known.old.items else replicate (length known.old.items) None) }
{
    if !right {
        known.fill(None);
    }
}

// The runs of the claim, if there is one.
fn runs_in(known: &Option<Claim>) -> &[Run<Epoch>]
    ensures { KnownRuns known.now result.now }
{
    match known {
        Some(claim) => claim.runs(),
        None => &[],
    }
}

// The claim once more, or none where that takes memory that isn't there.
fn shared(claim: &Claim) -> Option<Claim>
    ensures { IfSome result (λ shared. shared ≡ claim.now) }
{
    match claim.clone() {
        Ok(shared) => Some(shared),
        Err(_) => None,
    }
}

// Whether they are the same runs in the same order.
fn are_same(runs: &[Run<Epoch>], others: &[Run<Epoch>]) -> bool
    ensures { result ≡ true → runs.now ≡ others.now }
{
    runs == others
}

// For each slot its entry at the start.
fn first_entries(
    alloc: Global,
    owners: &[Run<NodeNo>],
) -> Result<Vec<Option<SlotEntry>>, AllocError>
    ensures entries { IfOk result (λ entries. HasFirstEntries owners.now entries.items) }
    ensures whole { IfOk result (λ entries. length entries.items ≡ 16384) }
{
    let mut entries = Vec::from_elem(alloc, None, Slot::COUNT)?;
    give_all(entries.as_mut_slice(), owners);
    Ok(entries)
}

// Each slot has the owner of the first run that has the slot.
fn give_all(entries: &mut [Option<SlotEntry>], owners: &[Run<NodeNo>])
    requires whole { length entries.old ≡ 16384 }
    requires free { (slot : ℕ) → slot < 16384 → entry_at entries.old slot ≡ None }
    ensures { HasFirstEntries owners.now entries.new }
{
    let mut left = owners.len();
    while left > 0 {
        left -= 1;
        let run = owners[left];
        give(entries, run.slots, run.value);
    }
}

// These slots have that owner, in the first epoch.
fn give(entries: &mut [Option<SlotEntry>], slots: SlotRange, owner: NodeNo)
    requires { length entries.old ≡ 16384 }
    ensures { ChangesIn slots (λ _. Some (entry_at_start owner)) entries.old entries.new }
{
    for at in slots.first.index()..slots.last.index() + 1 {
        entries[at] = Some(SlotEntry::at_start(owner));
    }
}
