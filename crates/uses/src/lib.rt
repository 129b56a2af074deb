//! Short callers with theorems of their own, proved over the public contracts of the other crates.
#![tactic(auto)]

mod both_keys;
mod pongs;
mod set_and_get;
mod shared_slots;
mod turns;
mod whole_requests;

pub use both_keys::set_both;
pub use pongs::{PongGate, PongStep, exact_answers};
pub use set_and_get::set_then_get;
pub use shared_slots::shared_slot;
pub use turns::{Turns, turn_about};
pub use whole_requests::all_requests;
