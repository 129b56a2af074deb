//! `rcluster serve --stop`: nodes that are stopped while the others are served on.

use cluster::NodeStop;
use cluster_config::Config;
use command_table::{count_in, positive_in};
use inputs::MOST_TICKS;
use std::alloc::{AllocError, Global};
use tool_io::Shown;

/// The stops that these texts are, or a sentence for the first text that is none.
pub fn read_stops(
    alloc: Global,
    texts: &[&str],
) -> Result<Result<Vec<NodeStop>, String>, AllocError> {
    let mut stops = Vec::with_capacity(alloc, texts.len())?;
    for text in texts {
        let Some(stop) = stop_in(text) else {
            return Ok(Err(no_stop(alloc, text)?));
        };
        stops.push(stop).map_err(AllocError::from)?;
    }
    Ok(Ok(stops))
}

/// A sentence for the first stop of a node that the cluster doesn't have, if there is one.
pub fn strange_stop(
    alloc: Global,
    stops: &[NodeStop],
    config: &Config,
) -> Result<Option<String>, AllocError> {
    let count = config.nodes().len();
    for stop in stops {
        if stop.node >= count {
            return Ok(Some(no_node(alloc, stop.node, count.saturating_sub(1))?));
        }
    }
    Ok(None)
}

// `node@ticks`
fn stop_in(text: &str) -> Option<NodeStop> {
    let (node, ticks) = text.split_once('@')?;
    let node = count_in(node.as_bytes())?;
    let ticks = positive_in(ticks.as_bytes())?;
    if ticks > MOST_TICKS {
        return None;
    }
    Some(NodeStop {
        node: node as usize,
        ticks,
    })
}

fn no_stop(alloc: Global, text: &str) -> Result<String, AllocError> {
    format!(in alloc;
        "\"{}\" is no stop: --stop takes N@TICKS, the number of a node and a number of ticks from 1 to {MOST_TICKS}",
        Shown(text.as_bytes())
    )
}

fn no_node(alloc: Global, node: usize, last: usize) -> Result<String, AllocError> {
    format!(in alloc;
        "--stop names node {node}, and the last node of the cluster is node {last}: they are counted from 0"
    )
}
