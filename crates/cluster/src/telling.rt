//! How the nodes are, as it is told from time to time and to whoever asks.

use cluster_controls::{Incident, Orders};
use node_cell::HoldsCell;
use shared_node::{ClusterStatus, SharedCluster};
use std::rt::Clock;
use std::sync::Wait;
use std::time::Duration;

/// When it is told how the nodes are.
#[derive(Clone, Copy, PartialEq, Eq, Debug)]
pub enum Telling {
    /// Never.
    Never,
    /// When somebody asks.
    WhenAsked,
    /// When somebody asks, and each time this many ticks have passed.
    Every(u64),
}

impl Telling {
    // Whether it is told behind that tick, which is counted from 1.
    fn is_due(self, tick: u64) -> bool {
        match self {
            Telling::Never | Telling::WhenAsked => false,
            Telling::Every(ticks) => ticks > 0 && tick % ticks == 0,
        }
    }
}

/// Has the witness see how each node is, each time that this is to be told, until the end. A tick takes that long, and a question waits for
/// the end of the next one.
pub(crate) fn tell_status<C: HoldsCell + Drop, R: Clock + Wait>(
    rt: &R,
    cluster: &SharedCluster<C>,
    orders: &Orders,
    tick: Duration,
    telling: Telling,
) {
    let mut told = 0u64;
    // A loop has to end, so this one counts its ticks.
    for number in 1..u64::MAX {
        cluster.stop.sleep(rt, tick);
        if cluster.stop.has_ended() {
            return;
        }
        let asked = orders.questions();
        if asked != told || telling.is_due(number) {
            told = asked;
            tell(rt, cluster);
        }
    }
}

fn tell<C: HoldsCell + Drop, R: Clock + Wait>(rt: &R, cluster: &SharedCluster<C>) {
    let status = ClusterStatus::of(rt, cluster);
    for number in 0..cluster.nodes.len() {
        if let Some(status) = status.node(number) {
            cluster.witness().see(rt, Incident::Status(status));
        }
    }
}
