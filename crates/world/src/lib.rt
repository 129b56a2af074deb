//! A world of nodes and clients in one process, driven step by step: what a cluster does, with each choice of the network in the
//! hands of the caller.
#![tactic(auto)]

mod client;
mod scene;
mod step;
mod world;

pub use step::Step;
pub use world::World;
pub use world_nodes::Output;
