//! How a step of a node is made, once a row of the step has drafted it.
#![tactic(auto)]

mod applying;
mod beginning;
mod clearing;
mod finishing;
mod making;

pub use making::{make, plain};
