//! The rows of a node's step for keys on their way and for claims.
#![tactic(auto)]

mod claims;
mod copies;
mod messages;
mod migrations;
mod ticks;

pub use messages::take_of_slots;
pub use migrations::migrate_keys;
pub use ticks::sent_again;
