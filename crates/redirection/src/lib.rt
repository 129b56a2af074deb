//! Where clients reach a node, and the errors by which a node sends a client to another one.
#![tactic(auto)]

mod address;
mod error_word;
mod law;
mod redirection;
mod splitting;
mod writing;

pub use address::Address;
pub use error_word::first_word;
pub use law::a_text_is_of_one_redirection;
pub use redirection::{Redirection, read_redirection};
pub use writing::{ask_reply, moved_reply};
