//! The connections of a node's clients: which are open, what each may ask, and what each waits for.
#![tactic(auto)]

mod conn;
mod connections;
mod places;
mod waiting;
mod walks;

pub use conn::{Conn, Connection, Wait};
pub use connections::Connections;
pub use step_fault::StepFault;
pub use waiting::Waiting;
