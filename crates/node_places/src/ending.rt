//! The stations of nodes that nobody serves any more.
ghost use Rattle.std.specs.Prelude.{◌≡◌, ◌+◌, ◌++◌, ◌∷◌, [], IfOk, OnOk, map, vec_len};
ghost use Rattle.std.specs.List.{range_with_len};

use link_ends::PortEnd;
use links::{Station, Web};
use node_cell::{Deployment, HoldsCell, Log, Posted};
use shared_node::Node;
use std::alloc::{AllocError, Global};

/// Why the stations of nodes that were served don't come back.
#[derive(Clone, Copy, PartialEq, Eq, Debug)]
pub enum StationFault {
    /// Memory was refused.
    Memory,
    /// A node isn't the one of its place.
    Mixed,
}

impl From<AllocError> for StationFault {
    fn from(_refused: AllocError) -> StationFault {
        StationFault::Memory
    }
}

/// The stations of nodes that nobody serves any more, in the order of the nodes' numbers. Where it fails they are let go.
pub fn stations_of<K: Deployment, W: Web, L: Log + Drop, E: PortEnd<Carried = Posted<K>>>(
    alloc: Global,
    nodes: Vec<Node<Station<K, W, L, E>>>,
) -> Result<Vec<Station<K, W, L, E>>, StationFault>
    ensures count { IfOk result (λ stations. vec_len stations ≡ vec_len nodes) }
    ensures nodes { IfOk result (λ stations.
        map (λ station. station.cell.node) stations.items ≡ range_with_len 0 (vec_len nodes)) }
{
    let mut stations = Vec::with_capacity(alloc, nodes.len())?;
    add_stations(nodes, &mut stations)?;
    Ok(stations)
}

// Adds the station of each node, in order, to none.
fn add_stations<K: Deployment, W: Web, L: Log + Drop, E: PortEnd<Carried = Posted<K>>>(
    nodes: Vec<Node<Station<K, W, L, E>>>,
    stations: &mut Vec<Station<K, W, L, E>>,
) -> Result<(), StationFault>
    requires none { stations.old.items ≡ [] }
    ensures count { OnOk result (vec_len stations.new ≡ vec_len nodes) }
    ensures nodes { OnOk result
        (map (λ station. station.cell.node) stations.new.items ≡ range_with_len 0 (vec_len nodes)) }
{
    for node in nodes {
        add_station(node, stations)?;
    }
    Ok(())
}

// Adds the station of the node, which is to have the next number.
fn add_station<K: Deployment, W: Web, L: Log + Drop, E: PortEnd<Carried = Posted<K>>>(
    node: Node<Station<K, W, L, E>>,
    stations: &mut Vec<Station<K, W, L, E>>,
) -> Result<(), StationFault>
    ensures count { OnOk result (vec_len stations.new ≡ vec_len stations.old + 1) }
    ensures nodes { OnOk result (map (λ station. station.cell.node) stations.new.items
        ≡ map (λ station. station.cell.node) stations.old.items ++ vec_len stations.old ∷ []) }
{
    let station = station_of(node, stations.len())?;
    stations.push(station).map_err(AllocError::from)?;
    Ok(())
}

// The station of a node, which is to have that number.
fn station_of<K: Deployment, W: Web, L: Log + Drop, E: PortEnd<Carried = Posted<K>>>(
    node: Node<Station<K, W, L, E>>,
    number: usize,
) -> Result<Station<K, W, L, E>, StationFault>
    ensures { IfOk result (λ station. station.cell.node ≡ number) }
{
    // No type says which node a lock has.
    let station = node.into_cell();
    if station.number().index() != number {
        return Err(StationFault::Mixed);
    }
    Ok(station)
}
