//! The word with which the text of an error begins.
ghost use Rattle.std.specs.Prelude.{◌≡◌, ◌≤◌, ◌==◌, length};
ghost use Rattle.std.specs.List.{position_or_len};
ghost use Rattle.redirection.specs.ErrorWord.{first_word};

/// The bytes before the first blank of an error's text: they are its kind, as MOVED, ASK or TRYAGAIN (RESP protocol
/// specification, "Simple errors").
pub fn first_word(text: &[u8]) -> &[u8]
    ensures { result.now ≡ first_word text.now }
{
    &text[..end_of_word(text)]
}

fn end_of_word(text: &[u8]) -> usize
    ensures end { result ≡ position_or_len (λ byte. byte == 32) text.now }
    ensures within { result ≤ length text.now }
{
    text.iter()
        .position(|byte| *byte == b' ')
        .unwrap_or(text.len())
}
