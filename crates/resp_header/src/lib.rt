//! Headers of RESP2: a mark, a number, and the end of the line.
#![tactic(auto)]

mod fault;
mod header;

pub use fault::Fault;
pub use header::{Bounds, Header, read_header};
