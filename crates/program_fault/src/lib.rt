//! Why the program stops: the faults whose codes it prints, and sentences for people beside them.
#![tactic(auto)]

mod failure;
mod fault;

pub use failure::Failure;
pub use fault::ProgramFault;
