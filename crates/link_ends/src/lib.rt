//! The ends of the links between the nodes of a cluster, in one process, and a bad network in front of them.
#![tactic(auto)]

mod acts;
mod comparing;
mod end;
mod halves;
mod held;
mod node_ends;
mod port_end;
mod port_ends;
mod repeated;
mod rule;
mod shim;

pub use acts::Act;
pub use comparing::compare_all;
pub use end::LinkEnd;
pub use halves::{MOST_MESSAGES, Receiver, Sender, compare, link};
pub use node_ends::NodeEnds;
pub use port_end::PortEnd;
pub use port_ends::{PortEnds, link_ports, link_shims};
pub use repeated::Repeated;
pub use shim::Shim;
