//! The journals of all stations, gathered.
ghost use Rattle.std.specs.Prelude.{◌≡◌, [], All, IfErr, IfOk, OnOk, List, length, map};
ghost use Rattle.audit.specs.Gathered.{AreNotOfEach, IfStranger, IsAllOf, IsGathered, IsGatheredFrom, parts_of};
ghost use Rattle.audit.specs.Merge.{AllAreSound, PartView};
ghost use Rattle.audit.specs.Stations.{AreInOrder, cells_of, ends_of};
ghost use Rattle.audit_fault.specs.declared.fault.AuditFault.TheVariants.{Memory};
ghost use Rattle.links.specs.Stations.{IsStation};
ghost use Rattle.tickets.specs.Tickets.{id_of};

use crate::each_node::{OfNode, put_in_order};
use crate::order::{Taken, take_apart};
use crate::part::Part;
use crate::whole_run::WorldRun;
use audit_fault::AuditFault;
use cluster_config::Config;
use link_ends::{NodeEnds, PortEnd, compare_all};
use links::{Station, Web};
use node_cell::{Deployment, Journal, Posted};
use std::alloc::{AllocError, Global};
use tickets::{Table, close};

impl<K: Deployment, W: Web, E: PortEnd<Carried = Posted<K>>> OfNode for Station<K, W, Journal, E> {
    ghost node = { λ station. station.cell.node };

    fn node_number(&self) -> usize {
        self.number().index()
    }
}

/// The run that the nodes of the cluster `K` made, by their stations at the links `W`, which may come in any order. Nobody serves the
/// nodes any more, and there were as many seats as there are nodes.
///
/// What a node took it received over a link, so its sender had sent it: nothing is looked for in the journals, and they are never told to
/// hold a message that nobody sent. `Stranger` comes only where the stations aren't those of each node once.
pub fn gather_stations<K: Deployment, W: Web, E: PortEnd<Carried = Posted<K>>>(
    alloc: Global,
    table: &Table,
    stations: Vec<Station<K, W, Journal, E>>,
) -> Result<WorldRun, AuditFault>
    requires table { id_of table.now ≡ K.table }
    requires seats { K.seats ≡ length K.config.nodes }
    ensures run { IfOk result
        (λ run. IsGathered K.config (parts_of (cells_of stations.items)) run) }
    ensures stranger { IfStranger result
        (AreNotOfEach K.config (parts_of (cells_of stations.items))) }
{
    if stations.is_empty() {
        return Err(AuditFault::Stranger);
    }
    let config = stations[0].config().clone()?;
    let count = config.nodes().len();
    match put_in_order(alloc, count, stations)? {
        Some(in_order) => gather_in_order(alloc, table, config, in_order),
        None => Err(AuditFault::Stranger),
    }
}

// The run that the nodes made, by their stations in the order of the nodes.
fn gather_in_order<K: Deployment, W: Web, E: PortEnd<Carried = Posted<K>>>(
    alloc: Global,
    table: &Table,
    config: Config,
    stations: Vec<Station<K, W, Journal, E>>,
) -> Result<WorldRun, AuditFault>
    requires table { id_of table.now ≡ K.table }
    requires seats { K.seats ≡ length K.config.nodes }
    requires config { config ≡ K.config }
    requires order { AreInOrder (length K.config.nodes) stations.items }
    ensures run { IfOk result
        (λ run. IsGathered K.config (parts_of (cells_of stations.items)) run) }
    ensures memory { IfErr result (λ fault. fault ≡ Memory) }
{
    let count = config.nodes().len();
    let (parts, ends) = finish_all(alloc, stations)?;
    compare_all(ends);
    match take_apart(alloc, count, parts)? {
        Some(taken) => Ok(merge::<K>(table, config, taken)),
        None => unreachable!(),
    }
}

// What is left of each station: the part of its node, and its ends of the links.
fn finish_all<K: Deployment, W: Web, E: PortEnd<Carried = Posted<K>>>(
    alloc: Global,
    stations: Vec<Station<K, W, Journal, E>>,
) -> Result<(Vec<Part<K>>, Vec<NodeEnds<Posted<K>, E::Handle>>), AllocError>
    ensures parts { IfOk result (λ left. left.0.items ≡ parts_of (cells_of stations.items)) }
    ensures ends { IfOk result (λ left. left.1.items ≡ map ends_of stations.items) }
    ensures stations { IfOk result (λ _. All (IsStation W.links) stations.items) }
    ensures cluster { IfOk result
        (λ _. All (λ station. station.cell.config ≡ K.config) stations.items) }
{
    let mut parts = Vec::with_capacity(alloc, stations.len())?;
    let mut all_ends = Vec::with_capacity(alloc, stations.len())?;
    finish_each(alloc, stations, &mut parts, &mut all_ends)?;
    Ok((parts, all_ends))
}

// Puts what is left of each station behind each other, into lists that have nothing yet.
fn finish_each<K: Deployment, W: Web, E: PortEnd<Carried = Posted<K>>>(
    alloc: Global,
    stations: Vec<Station<K, W, Journal, E>>,
    parts: &mut Vec<Part<K>>,
    all_ends: &mut Vec<NodeEnds<Posted<K>, E::Handle>>,
) -> Result<(), AllocError>
    requires no_part { parts.old.items ≡ [] }
    requires no_end { all_ends.old.items ≡ [] }
    ensures parts { OnOk result (parts.new.items ≡ parts_of (cells_of stations.items)) }
    ensures ends { OnOk result (all_ends.new.items ≡ map ends_of stations.items) }
    ensures stations { OnOk result (All (IsStation W.links) stations.items) }
    ensures cluster { OnOk result (All (λ station. station.cell.config ≡ K.config) stations.items) }
{
    for station in stations {
        let (cell, ends) = station.finish(alloc)?;
        parts.push(Part::of(cell)).map_err(AllocError::from)?;
        all_ends
            .push(NodeEnds::new(ends))
            .map_err(AllocError::from)?;
    }
    Ok(())
}

// The run of journals by the numbers of their nodes, in which all that was taken was sent.
fn merge<K: Deployment>(table: &Table, config: Config, taken: Taken) -> WorldRun
    requires table { id_of table.now ≡ K.table }
    requires seats { K.seats ≡ length K.config.nodes }
    requires config { config ≡ K.config }
    requires taken { (parts : List PartView) × IsAllOf K.config K.table K.seats taken parts }
    requires sound { AllAreSound taken.journals.items }
    ensures { IsGatheredFrom K.config K.table K.seats taken result }
{
    let _at_least_one = config.nodes();
    let Taken { journals, seats } = taken;
    match close(table, seats) {
        Some(tickets) => WorldRun::new(config, journals, tickets),
        None => unreachable!(),
    }
}
