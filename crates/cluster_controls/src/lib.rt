//! What the threads of a cluster share beside its nodes: its clients, the orders to it, its end, and who hears what happens.
#![tactic(auto)]

mod clients;
mod orders;
mod runtime;
mod spare;
mod status;
mod stop;
mod witness;

pub use clients::{Clients, Refused};
pub use orders::Orders;
pub use runtime::Runtime;
pub use spare::Spares;
pub use status::NodeStatus;
pub use stop::{NodeStop, Stop, most_ticks};
pub use witness::{Heard, Hearing, Incident, Shortage, Witness};
