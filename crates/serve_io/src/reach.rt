//! Who reaches the nodes.

use cluster_config::{Config, NodeConfig};
use std::net::IpAddr;

/// The host of a node, as its configuration names it.
pub fn host_of(node: &NodeConfig) -> &str {
    str::from_utf8(node.host.as_slice()).unwrap_or("")
}

/// Says of each node whether others than this machine may reach it. All nodes listen at that host, or each at its own.
pub fn warn_of_reach<R: Eprint>(rt: &R, config: &Config, listens_at: Option<&str>) {
    for (number, node) in config.nodes().iter().enumerate() {
        let host = listens_at.unwrap_or(host_of(node));
        if !is_loopback(host) {
            // Where that can't be told, the cluster is served all the same.
            let _told = eprintln!(rt;
                "rcluster: the host {host} of node {number} is no loopback address: there is no password and no TLS, and whoever reaches port {} reads and writes all keys",
                node.port
            );
        }
    }
}

fn is_loopback(host: &str) -> bool {
    if host == "localhost" {
        return true;
    }
    match host.parse::<IpAddr>() {
        Ok(address) => address.is_loopback(),
        Err(_) => false,
    }
}
