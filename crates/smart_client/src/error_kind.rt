//! The kinds of errors by which a client goes on.
ghost use Rattle.std.specs.Prelude.{◌≡◌};
ghost use Rattle.smart_client.specs.ErrorKind.{kind_of};

use redirection::first_word;

/// What the first word of an error tells a client.
#[derive(Clone, Copy, PartialEq, Eq, Debug)]
pub(crate) enum ErrorKind {
    /// Another node is named: MOVED or ASK.
    Redirection,
    /// The same is to be asked again: TRYAGAIN.
    TryAgain,
    /// The node closes the connection: OOM or EXHAUSTED.
    LastLine,
    /// It is the reply to the command.
    Other,
}

impl ErrorKind {
    /// The kind of the error with this text.
    pub(crate) fn of(text: &[u8]) -> ErrorKind
        ensures { result ≡ kind_of text.now }
    {
        let word = first_word(text);
        if word == b"MOVED".as_slice() || word == b"ASK".as_slice() {
            return ErrorKind::Redirection;
        }
        if word == b"TRYAGAIN".as_slice() {
            return ErrorKind::TryAgain;
        }
        if word == b"OOM".as_slice() || word == b"EXHAUSTED".as_slice() {
            return ErrorKind::LastLine;
        }
        ErrorKind::Other
    }
}
