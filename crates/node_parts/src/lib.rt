//! What a node consists of, and how a step of it is drafted, which changes nothing yet.
#![tactic(auto)]

mod change;
mod draft;
mod drained;
mod electing;
mod masters;
mod parts;
mod standing;
mod succession;
mod telling;

pub use change::Change;
pub use draft::{Draft, listed};
pub use electing::ElectionState;
pub use parts::NodeParts;
pub use succession::Succession;
pub use telling::done;
