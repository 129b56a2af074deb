//! Why a step of a node isn't made.
#![tactic(auto)]

mod fault;

pub use fault::StepFault;
