//! What a store has in several slots, in one list by rising key.
#![tactic(auto)]

mod gathering;
mod listing;

pub use listing::{keys_in_slots, pairs};
