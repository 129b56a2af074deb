//! RESP2, the serialization protocol between Redis clients and servers.
#![tactic(auto)]

mod appending;
mod array_part;
mod bulk;
mod counting;
mod law;
mod leaf;
mod parts;
mod reader;
mod reply_reader;
mod sending;
mod whole;
mod words;
mod writing;

pub use appending::{append_command, append_count, append_reply, append_request, append_word};
pub use counting::Counting;
pub use law::{
    a_stream_is_read_in_one_way, bytes_have_one_front, bytes_have_one_reply_front,
    no_reply_begins_another, no_spelling_begins_another, no_unfinished_is_whole,
    replies_are_read_in_one_way,
};
pub use reader::Reader;
pub use reply_reader::{MOST_COUNT, MOST_DEPTH, ReplyReader};
pub use resp_header::Fault;
pub use resp_values::{
    Array, Element, Line, MOST_REQUEST_BYTES, MOST_WORD_BYTES, MOST_WORDS, Reply, Words,
    array_determines_replies, array_is_one_deeper, arrays_are_of_replies,
};
pub use sending::{send_words, write_words};
pub use writing::{send_reply, write_reply};
