//! A request on a connection, and the reply to it: bytes out, bytes in.
#![tactic(auto)]

mod buffers;
mod outcome;
mod request;
mod sender;

pub use buffers::Buffers;
pub use outcome::Outcome;
pub use request::exchange;
pub use sender::Sender;
