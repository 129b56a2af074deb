//! Keys of a slot on their way from one node to another, while a move of the slot is under way.
#![tactic(auto)]

mod acknowledging;
mod arriving;
mod draining;
mod losing;
mod resending;
mod sending;

pub use acknowledging::{acknowledged_keys, on_ack, unfreeze};
pub use arriving::{ArrivalVerdict, arrival_verdict, count_copy, on_copy};
pub use draining::on_drained;
pub use losing::on_lost;
pub use resending::{Resend, resent};
pub use sending::{CopyVerdict, begin, copy_verdict, freeze};
