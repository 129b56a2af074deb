//! Commands and replies as people type and read them at redis-cli: a command a line, and a reply as text.
#![tactic(auto)]

mod commands;
mod fault;
mod hex;
mod lines;
mod quoting;
mod reply_bytes;
mod reply_text;
mod splitting;

pub use commands::Commands;
pub use fault::{CommandFault, NoCommand};
pub use reply_bytes::print_reply;
pub use reply_text::print_text;
