//! The command table in code: what each command on keys replies and changes, over any store.
#![tactic(auto)]

mod commands;
mod hash_changes;
mod hashes;
mod number;
mod replies;
mod strings;

pub use commands::{exec, plan, plan_command};
