//! The values of RESP2, the protocol between Redis clients and servers: the words of a request, and replies.
#![tactic(auto)]

mod array;
mod law;
mod line;
mod reply;
mod words;

pub use array::{Array, Element};
pub use law::{array_determines_replies, array_is_one_deeper, arrays_are_of_replies};
pub use line::{Line, is_text_byte};
pub use reply::Reply;
pub use words::{MOST_REQUEST_BYTES, MOST_WORD_BYTES, MOST_WORDS, Words};
