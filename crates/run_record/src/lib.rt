//! What the nodes of a cluster did, as a text: a line an entry of their journals.
#![tactic(auto)]

mod entry;
mod event;
mod message;
mod outcome;
mod quoted;

pub use entry::write_entry;
