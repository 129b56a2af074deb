//! Why the journals of nodes aren't told to be a run.
#![tactic(auto)]

mod fault;

pub use fault::AuditFault;
