//! The rows of a node's step for questions about the cluster, which change nothing.
#![tactic(auto)]

mod reports;

pub use reports::report;
