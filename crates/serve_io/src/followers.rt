//! How far the replicas of a cluster were at its end, on standard error.

use node_cell::HoldsCell;

/// Tells of each node that is a replica now how many bytes it has of its master's stream. The nodes are all those of the cluster, by their
/// numbers.
pub fn tell_followers<C: HoldsCell, R: Eprint>(rt: &R, nodes: &[C]) {
    for (number, node) in nodes.iter().enumerate() {
        if let Some(of) = node.core().own_master() {
            tell_follower(rt, nodes, number, of.index());
        }
    }
}

fn tell_follower<C: HoldsCell, R: Eprint>(rt: &R, nodes: &[C], number: usize, of: usize) {
    let (Some(replica), Some(master)) = (nodes.get(number), nodes.get(of)) else {
        return;
    };
    let had = replica.core().received();
    let all = master.core().received();
    let _told = eprintln!(rt;
        "rcluster: node {number} had {had} of the {all} bytes of the stream of node {of}"
    );
}
