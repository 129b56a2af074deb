//! The nodes of a cluster at the places where they are served: how they begin there, and what is left of them in the end.
#![tactic(auto)]

mod beginning;
mod ending;
mod place;

pub use beginning::nodes_at;
pub use ending::{StationFault, stations_of};
pub use place::Place;
