//! A configuration as a JSON text: the cluster that it describes, or the first thing that is wrong with it.
#![tactic(auto)]

mod building;
mod checks;
mod fault;
mod form;
mod reading;

pub use fault::ConfigFault;
pub use reading::read_config;
