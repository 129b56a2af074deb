//! What may be wrong with a configuration whose form is right.
ghost use Rattle.std.specs.Prelude.{◌≡◌, Bool, None, Some, IfErr, IfOk, OnOk, ◌⊎◌};
ghost use Rattle.std.specs.Fn.{FnReturnsAtPair};
ghost use Rattle.std.specs.List.{list_all};
ghost use Rattle.cluster_config.specs.Config.{all_pairs};
ghost use Rattle.config_text.specs.Faults.{are_ids, are_slots, are_voters, are_within, fault_of, follows_master, has_master, has_port, is_elsewhere, is_up_to, number_of, range_from};
ghost use Rattle.config_text.specs.declared.fault.ConfigFault.TheVariants.{Memory};

use crate::fault::{ConfigFault, hold};
use crate::form::{Draft, NodeDraft, RoleDraft};
use byte_string::ByteString;
use cluster_config::is_id;
use key_slot::{Slot, SlotRange};
use slot_table::NodeNo;
use std::alloc::{AllocError, Global};

/// Tells the first thing that is wrong with what a text says, if anything is. It looks for the faults in the order in which
/// [`ConfigFault`] has them.
#[tactic(auto, unfolding(crate::specs::Faults::fault_of))]
pub(crate) fn check(alloc: Global, draft: &Draft) -> Result<(), ConfigFault>
    ensures ok { OnOk result (fault_of draft.now ≡ None) }
    ensures err { IfErr result (λ fault. (fault ≡ Memory) ⊎ (fault_of draft.now ≡ Some fault)) }
{
    let nodes = draft.nodes.items.as_slice();
    let voters = draft.voters.items.as_slice();
    hold(are_ids(nodes), ConfigFault::Id)?;
    hold(are_slots(alloc, nodes)?, ConfigFault::Slots)?;
    hold(have_masters(nodes), ConfigFault::ReplicaOf)?;
    hold(are_voters(nodes, voters), ConfigFault::Voters)?;
    hold(nodes.len() <= NodeNo::COUNT, ConfigFault::TooManyNodes)?;
    hold(have_own_addresses(nodes), ConfigFault::Address)?;
    hold(are_within(draft), ConfigFault::Range)
}

// Whether the test passes for each item with each later one. The time is that of all pairs, so there should be few.
fn all_pairs<T, F: Fn(&T, &T) -> bool>(items: &[T], test: F) -> bool
    requires { F.IsAlwaysCallable test }
    ensures { (passes : T → T → Bool)
        → ((x : T) (y : T) (b : Bool) → FnReturnsAtPair F.Fn test x y b → b ≡ passes x y)
        → result ≡ all_pairs passes items.now }
{
    let mut rest = items;
    while let Some((item, later)) = rest.split_first() {
        for other in later {
            if !test(item, other) {
                return false;
            }
        }
        rest = later;
    }
    true
}

// Each id is one, and above the ids before it.
fn are_ids(nodes: &[NodeDraft]) -> bool
    ensures { result ≡ are_ids nodes.now }
{
    nodes.iter().all(|node| is_id(node.id.as_slice()))
        && all_pairs(nodes, |node, next| node.id < next.id)
}

// Each pair is a range of slots, and no slot is in two, of one node or of two.
fn are_slots(alloc: Global, nodes: &[NodeDraft]) -> Result<bool, AllocError>
    ensures { IfOk result (λ sound. sound ≡ are_slots nodes.now) }
{
    let mut ranges = Vec::new(alloc);
    for node in nodes {
        if let RoleDraft::Slots(pairs) = &node.role {
            for pair in &pairs.items {
                let Some(range) = range_from(pair) else {
                    return Ok(false);
                };
                ranges.push(range)?;
            }
        }
    }
    Ok(all_pairs(ranges.as_slice(), |range, other| {
        range.last < other.first || other.last < range.first
    }))
}

/// The slots from one to the same or a later one.
pub(crate) fn range_from(pair: &(i128, i128)) -> Option<SlotRange>
    ensures { result ≡ range_from pair.now }
{
    let first = Slot::new(u16::try_from(pair.0).ok()?)?;
    let last = Slot::new(u16::try_from(pair.1).ok()?)?;
    (first <= last).then_some(SlotRange { first, last })
}

// Each replica is one of a master of the list.
fn have_masters(nodes: &[NodeDraft]) -> bool
    ensures { result ≡ list_all (has_master nodes.now) nodes.now }
{
    nodes.iter().all(|node| follows_master(nodes, &node.role))
}

fn follows_master(nodes: &[NodeDraft], role: &RoleDraft) -> bool
    ensures { result ≡ follows_master nodes.now role.now }
{
    match role {
        RoleDraft::Slots(_) => true,
        RoleDraft::ReplicaOf(id) => nodes
            .get(number_of(nodes, id))
            .is_some_and(|master| matches!(master.role, RoleDraft::Slots(_))),
    }
}

/// How many nodes stand before the one that has the id; all of them, if none has it.
pub(crate) fn number_of(nodes: &[NodeDraft], id: &ByteString) -> usize
    ensures { result ≡ number_of nodes.now id.now }
{
    let found = nodes.iter().position(|node| node.id == *id);
    found.unwrap_or(nodes.len())
}

// Each is the id of a node, there is one, and none stands twice.
fn are_voters(nodes: &[NodeDraft], voters: &[ByteString]) -> bool
    ensures { result ≡ are_voters nodes.now voters.now }
{
    voters.iter().all(|id| number_of(nodes, id) < nodes.len())
        && !voters.is_empty()
        && all_pairs(voters, |voter, other| voter != other)
}

// No host and port stands twice.
fn have_own_addresses(nodes: &[NodeDraft]) -> bool
    ensures { result ≡ all_pairs is_elsewhere nodes.now }
{
    all_pairs(nodes, |node, other| {
        node.port != other.port || node.host.as_slice() != other.host.as_slice()
    })
}

// The ports, the times and the backlog are what they may be.
fn are_within(draft: &Draft) -> bool
    ensures { result ≡ are_within draft.now }
{
    let nodes = draft.nodes.items.as_slice();
    are_ports(nodes)
        && is_up_to(1_000_000, draft.tick_ms)
        && is_up_to(1_000_000, draft.node_timeout)
        && is_up_to(16_777_216, draft.backlog)
}

fn are_ports(nodes: &[NodeDraft]) -> bool
    ensures { result ≡ list_all has_port nodes.now }
{
    nodes.iter().all(|node| is_up_to(65_535, node.port))
}

fn is_up_to(last: i128, number: i128) -> bool
    ensures { result ≡ is_up_to last number }
{
    (1..=last).contains(&number)
}
