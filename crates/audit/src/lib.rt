//! The journals of all nodes of a cluster, checked and merged into the run that they are.
#![tactic(auto)]

mod each_node;
mod gathering;
mod journal;
mod law;
mod order;
mod part;
mod sound;
mod stations;
mod whole_run;

pub use audit_fault::AuditFault;
pub use gathering::gather;
pub use law::journals_are_a_run;
pub use stations::gather_stations;
pub use whole_run::WorldRun;
