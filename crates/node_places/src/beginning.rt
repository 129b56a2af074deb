//! Nodes as they begin at their places.
ghost use Rattle.std.specs.Prelude.{◌≡◌, ◌<◌, ◌+◌, All, IfOk, OnOk, length, map, vec_len};
ghost use Rattle.link_ends.specs.Ends.{AreEndsOf, AreLinkedFrom};
ghost use Rattle.tickets.specs.Tickets.{IsFresh};

use crate::place::Place;
use cluster_config::Config;
use link_ends::{PortEnd, PortEnds};
use links::{Station, Web};
use node_cell::{Deployment, Log, NodeCell, Posted};
use shared_node::Node;
use slot_table::NodeNo;
use std::alloc::{AllocError, Global};
use tickets::Seat;

/// The nodes as they begin, each at its place, with an `L` as its journal and the links `W` between them. The first place is that of the first
/// node, and so on.
pub fn nodes_at<K: Deployment, W: Web, L: Log + Drop, E: PortEnd<Carried = Posted<K>>>(
    alloc: Global,
    config: &Config,
    places: Vec<Place<E>>,
) -> Result<Vec<Node<Station<K, W, L, E>>>, AllocError>
    requires cluster { config.now ≡ K.config }
    requires places { length places.items ≡ length config.now.nodes }
    requires seats { All (λ place. IsFresh K.table K.seats place.seat) places.items }
    requires links { AreLinkedFrom W.links (length config.now.nodes) 0
        (map (λ place. place.ends) places.items) }
    ensures { IfOk result (λ nodes. vec_len nodes ≡ length places.items) }
{
    let mut nodes = Vec::with_capacity(alloc, places.len())?;
    add_nodes(alloc, config, places, &mut nodes)?;
    Ok(nodes)
}

// Adds a node for each place, in order, to none.
fn add_nodes<K: Deployment, W: Web, L: Log + Drop, E: PortEnd<Carried = Posted<K>>>(
    alloc: Global,
    config: &Config,
    places: Vec<Place<E>>,
    nodes: &mut Vec<Node<Station<K, W, L, E>>>,
) -> Result<(), AllocError>
    requires cluster { config.now ≡ K.config }
    requires places { length places.items ≡ length config.now.nodes }
    requires seats { All (λ place. IsFresh K.table K.seats place.seat) places.items }
    requires links { AreLinkedFrom W.links (length config.now.nodes) 0
        (map (λ place. place.ends) places.items) }
    requires none { vec_len nodes.old ≡ 0 }
    ensures { OnOk result (vec_len nodes.new ≡ length places.items) }
{
    for place in places {
        add_node(alloc, config, place, nodes)?;
    }
    Ok(())
}

// Adds the node of the next number.
fn add_node<K: Deployment, W: Web, L: Log + Drop, E: PortEnd<Carried = Posted<K>>>(
    alloc: Global,
    config: &Config,
    place: Place<E>,
    nodes: &mut Vec<Node<Station<K, W, L, E>>>,
) -> Result<(), AllocError>
    requires cluster { config.now ≡ K.config }
    requires number { vec_len nodes.old < length config.now.nodes }
    requires seat { IsFresh K.table K.seats place.seat }
    requires links { AreEndsOf W.links (vec_len nodes.old) (length config.now.nodes) place.ends }
    ensures { OnOk result (vec_len nodes.new ≡ vec_len nodes.old + 1) }
{
    let node = node_at(alloc, config, nodes.len(), place)?;
    nodes.push(node).map_err(AllocError::from)
}

fn node_at<K: Deployment, W: Web, L: Log + Drop, E: PortEnd<Carried = Posted<K>>>(
    alloc: Global,
    config: &Config,
    number: usize,
    place: Place<E>,
) -> Result<Node<Station<K, W, L, E>>, AllocError>
    requires cluster { config.now ≡ K.config }
    requires number { number < length config.now.nodes }
    requires seat { IsFresh K.table K.seats place.seat }
    requires links { AreEndsOf W.links number (length config.now.nodes) place.ends }
{
    let _at_most_16 = config.nodes();
    let number = NodeNo::new(number as u8).unwrap();
    let (seat, ends, listener) = place.into_parts();
    let station = station_at::<K, W, L, E>(alloc, config, number, seat, ends)?;
    Ok(Node::new(station, listener))
}

// A station of the node of that number, as it begins.
fn station_at<K: Deployment, W: Web, L: Log + Drop, E: PortEnd<Carried = Posted<K>>>(
    alloc: Global,
    config: &Config,
    number: NodeNo,
    seat: Seat,
    ends: PortEnds<E>,
) -> Result<Station<K, W, L, E>, AllocError>
    requires cluster { config.now ≡ K.config }
    requires number { number < length config.now.nodes }
    requires seat { IsFresh K.table K.seats seat }
    requires links { AreEndsOf W.links number (length config.now.nodes) ends }
{
    let cell = NodeCell::<K, L>::new(alloc, config, number, seat)?;
    Station::<K, W, L, E>::new(alloc, cell, ends)
}
