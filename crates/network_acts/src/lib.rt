//! What a bad network does to the messages between nodes: as a text says it, or as a few numbers have it made up.
#![tactic(auto)]

mod chances;
mod fault;
mod text;

pub use chances::{chance_acts, is_by_chance};
pub use fault::{ActsFault, LineFault};
pub use text::text_acts;
