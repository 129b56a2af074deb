//! The replies that orders to move a slot or a key get.
ghost use Rattle.std.specs.Prelude.{◌≡◌};
ghost use Rattle.resharder.specs.Replies.{answer_of, error_kind, simple_kind};

use command_table::ErrorLine;
use redirection::first_word;
use resp_values::Reply;

/// What a node answers to an order to move a slot or a key.
#[derive(Clone, Copy)]
pub(crate) enum Answer {
    /// It is done: `+OK`.
    Done,
    /// The key isn't there any more: `+NOKEY`.
    NoKey,
    /// The same is to be asked again: TRYAGAIN.
    TryAgain,
    /// Whether the key has arrived isn't known: IOERR.
    NotAcknowledged,
    /// Keys of the slot may be left at the node that it comes from.
    NotDrained,
    /// Anything else.
    Other,
}

impl Answer {
    /// What the reply says.
    pub(crate) fn of(reply: &Reply) -> Answer
        ensures { result ≡ answer_of reply.now }
    {
        match reply {
            Reply::Simple(text) => simple(text.as_slice()),
            Reply::Error(text) => error(text.as_slice()),
            _ => Answer::Other,
        }
    }
}

fn simple(text: &[u8]) -> Answer
    ensures { result ≡ simple_kind text.now }
{
    if text == b"OK".as_slice() {
        return Answer::Done;
    }
    if text == b"NOKEY".as_slice() {
        return Answer::NoKey;
    }
    Answer::Other
}

fn error(text: &[u8]) -> Answer
    ensures { result ≡ error_kind text.now }
{
    if text == ErrorLine::NotDrained.text() {
        return Answer::NotDrained;
    }
    let word = first_word(text);
    if word == b"TRYAGAIN".as_slice() {
        return Answer::TryAgain;
    }
    if word == b"IOERR".as_slice() {
        return Answer::NotAcknowledged;
    }
    Answer::Other
}
