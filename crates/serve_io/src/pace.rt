//! How fast ticks follow each other.

use cluster_config::Config;

// What a node tells another one at a tick, and that one makes of it, takes a processor for about this many microseconds.
const COST: u64 = 20;

/// Says so where a tick is shorter than what all nodes do at one.
pub fn warn_of_pace<R: Eprint>(rt: &R, config: &Config) {
    let nodes = config.nodes().len() as u64;
    let tick_ms = u64::from(config.tick_ms());
    let cost = nodes.saturating_mul(nodes).saturating_mul(COST) / 1000;
    if tick_ms < cost {
        // Where that can't be told, the cluster is served all the same.
        let _told = eprintln!(rt;
            "rcluster: ticks of {tick_ms} ms are too short for {nodes} nodes: what these tell each other at each tick takes a processor for some {cost} ms, and clients wait meanwhile"
        );
    }
}
