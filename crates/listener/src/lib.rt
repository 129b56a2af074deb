//! The conversation of a node with one client: bytes in, bytes out.
#![tactic(auto)]

mod batch;
mod connection;
mod farewell;
mod fault;
mod input;
mod law;
mod outgoing;
mod reading;
mod requests;
mod shared_gate;
mod talk;

pub use connection::serve_conn;
pub use farewell::Farewell;
pub use fault::ConnFault;
pub use law::turns_make_a_conversation;
pub use outgoing::Left;
pub use reading::{Came, read_once};
pub use requests::{Next, Rest};
pub use shared_gate::SharedGate;
pub use talk::Talk;
