//! The nodes of a cluster, from their places to the stations that are left of them in the end.
ghost use Rattle.std.specs.Prelude.{◌≡◌, All, IfOk, length, map, vec_len};
ghost use Rattle.std.specs.List.{range_with_len};
ghost use Rattle.link_ends.specs.Ends.{AreLinkedFrom};
ghost use Rattle.tickets.specs.Tickets.{IsFresh};

use cluster::{Course, Overseer, RunFault, Runtime, Times, run_all};
use cluster_config::Config;
use link_ends::PortEnd;
use links::{Station, Web};
use node_cell::{Admission, Deployment, Log, Posted};
use node_places::{Place, StationFault, nodes_at, stations_of};
use std::alloc::{AllocError, Global};
use std::sync::Arc;
use std::time::Duration;

/// Why the nodes of a cluster can't be served.
#[derive(Clone, Copy, PartialEq, Eq, Debug)]
pub enum ServeFault {
    /// Memory was refused.
    Memory,
    /// A thread of a node can't be started, or hasn't ended.
    Thread,
    /// A node isn't the one that was served at its place.
    Mixed,
}

impl From<RunFault> for ServeFault {
    fn from(fault: RunFault) -> ServeFault {
        match fault {
            RunFault::Memory => ServeFault::Memory,
            RunFault::Thread => ServeFault::Thread,
        }
    }
}

impl From<StationFault> for ServeFault {
    fn from(fault: StationFault) -> ServeFault {
        match fault {
            StationFault::Memory => ServeFault::Memory,
            StationFault::Mixed => ServeFault::Mixed,
        }
    }
}

impl From<AllocError> for ServeFault {
    fn from(_refused: AllocError) -> ServeFault {
        ServeFault::Memory
    }
}

/// Serves the nodes of the cluster, each at its place, with an `L` as its journal and the links `W` between them, as long as the course
/// says. It returns the stations, in the order of the nodes' numbers, once all threads are done with them. The overseer sees which clients can't be served, and which thread can't be started.
///
/// Nodes that have a stop, by the course or by an order, are stopped meanwhile, as `run_all` says.
pub fn serve_nodes<
    K: Deployment + Send + Sync + 'static,
    W: Web + Send + 'static,
    L: Log + Drop + Send + 'static,
    E: PortEnd<Carried = Posted<K>> + Send + 'static,
>(
    rt: E::Handle,
    alloc: Global,
    config: &Config,
    places: Vec<Place<E>>,
    course: Course,
    overseer: &Overseer,
) -> Result<Vec<Station<K, W, L, E>>, ServeFault>
where
    L::Record: Send + 'static,
    E::Handle: Runtime,
    requires cluster { config.now ≡ K.config }
    requires places { length places.items ≡ length config.now.nodes }
    requires seats { All (λ place. IsFresh K.table K.seats place.seat) places.items }
    requires links { AreLinkedFrom W.links (length config.now.nodes) 0
        (map (λ place. place.ends) places.items) }
    ensures count { IfOk result (λ stations. vec_len stations ≡ length places.items) }
    ensures nodes { IfOk result (λ stations. map (λ station. station.cell.node) stations.items
        ≡ range_with_len 0 (length config.now.nodes)) }
{
    let admission = Arc::new(alloc, Admission::<K>::new(config)).map_err(AllocError::from)?;
    let nodes = nodes_at::<K, W, L, E>(alloc, config, places)?;
    let times = Times {
        interval: Duration::from_millis(u64::from(config.tick_ms())),
        course,
    };
    let nodes = run_all(rt, alloc, nodes, &admission, times, overseer)?;
    Ok(stations_of(alloc, nodes)?)
}
