//! What a node has of a stream of writes.
#![tactic(auto)]

mod answering;
mod backlog;
mod block;
mod fault;
mod lengths;
mod node_stream;
mod offering;
mod page_ring;
mod pages;
mod parts;
mod received;
mod replaces;
mod requests;
mod restoring;
mod stream;
mod whole_stream;
mod writing;
mod written;

pub use backlog::Backlog;
pub use block::block_of;
pub use fault::{AppendFault, OfferFault, StreamFault};
pub use node_stream::NodeStream;
pub use replaces::Replaces;
pub use stream::Stream;
pub use whole_stream::WholeStream;
pub use written::Written;
