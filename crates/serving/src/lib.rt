//! A cluster that is served on sockets, as `rcluster serve` does, with the record of what its nodes did, and the audit at its end.
#![tactic(auto)]

mod recording;
mod serving;
mod stations;

pub use recording::begin_record;
pub use serve_io::{Doors, listen_anywhere, ports_of, warn_of_pace, warn_of_reach};
pub use serving::{Network, Server, Wishes, serve, serve_for};
pub use stations::{ServeFault, serve_nodes};
