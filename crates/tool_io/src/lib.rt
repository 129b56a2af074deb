//! What the tools for a cluster share: connections to its nodes, on which all is seen that is asked and answered, waits, and what is told of
//! them and of failures.
#![tactic(auto)]

mod failure;
mod output;
mod patience;
mod patient;
mod printing;
mod progress;
mod runtime;
mod shown;
mod sockets;
mod target;
mod telling;
mod waiting;
mod watched;

pub use failure::{HandoverFault, ToolFailure, ToolFault};
pub use output::write;
pub use patience::Patience;
pub use patient::{Patient, end_wait, forget_refusals};
pub use printing::{Style, print};
pub use progress::{Progress, Terminals};
pub use runtime::ToolRuntime;
pub use shown::Shown;
pub use sockets::{End, Sockets, no_address};
pub use telling::{
    Named, Unlisted, call_failure, handover_failure, late_failure, master_failure, run_failure,
    unfound_failure, unknown_failure, unlisted_failure,
};
pub use waiting::{Waiting, time_since};
pub use watched::{Seen, Watched};
