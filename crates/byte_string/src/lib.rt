//! Byte strings, as keys, values and the words of requests are: short ones in place, long ones in a block, which copies of those from 249 bytes on share.
#![tactic(auto)]

mod block;
mod byte_string;
mod form;
mod order;
mod short;

pub use byte_string::ByteString;
pub use form::LEAST_SHARED;
pub use short::MOST_SHORT;
