//! What a step of a node may be: events, outputs, states, and the relation between them; and why none is made.
#![tactic(auto)]

mod event;
mod few;
mod outputs;
mod promotion;
mod recorder;
mod response;

pub use event::Event;
pub use outputs::{Messages, Outputs, Release, Releases};
pub use promotion::{Promoted, Promotion};
pub use recorder::Recorder;
pub use response::{Answer, Response, Why};
pub use step_fault::StepFault;
