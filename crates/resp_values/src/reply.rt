//! What a node answers.
ghost use Rattle.std.specs.Prelude.{◌≡◌};

use crate::array::Array;
use crate::line::Line;
use byte_string::ByteString;
use std::alloc::AllocError;

/// A reply, by the kinds of the protocol.
#[derive(PartialEq, Eq, Debug, Drop)]
pub enum Reply {
    /// A short text, as `+OK`.
    Simple(Line),
    /// An error, whose first word names its kind.
    Error(Line),
    /// A signed number of 64 bits.
    Integer(i64),
    /// Any bytes.
    Bulk(ByteString),
    /// The bulk string that isn't there.
    Null,
    /// Replies in a row.
    Array(Array),
}

impl Clone for Reply {
    ghost is_clone = { λ reply copy. copy ≡ reply };

    fn clone(&self) -> Result<Reply, AllocError> {
        match self {
            Reply::Simple(text) => Ok(Reply::Simple(text.clone()?)),
            Reply::Error(text) => Ok(Reply::Error(text.clone()?)),
            Reply::Integer(number) => Ok(Reply::Integer(*number)),
            Reply::Bulk(bytes) => Ok(Reply::Bulk(bytes.clone()?)),
            Reply::Null => Ok(Reply::Null),
            Reply::Array(array) => Ok(Reply::Array(array.clone()?)),
        }
    }
}
