//! Says in a sentence what is wrong with a text that describes no cluster, and where.
#![tactic(auto)]

mod form;
mod json;
mod nodes;
mod numbers;
mod reporting;
mod slots;
mod voters;
mod wrong;

pub use reporting::report;
