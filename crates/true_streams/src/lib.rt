//! Replicas of true streams.
#![tactic(auto)]

mod law;

pub use law::{replicas_follow_true_streams, replicas_stay_on_true_streams};
