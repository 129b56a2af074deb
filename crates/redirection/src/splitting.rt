//! The parts of a text, and the numbers in it.
ghost use Rattle.std.specs.Prelude.{◌≡◌, ◌<◌, ◌==◌, position, length, true, IfNone, IfSome};
ghost use Rattle.redirection.specs.Splitting.{IsSplit, IsNumber, IsNoNumber, is_without};

use command_table::number_in;

/// The bytes before the first such byte, and those behind it, or None where it isn't in the text.
pub(crate) fn split_at(text: &[u8], byte: u8) -> Option<(&[u8], &[u8])>
    ensures found { IfSome result (λ parts. IsSplit byte text.now parts.0.now parts.1.now) }
    ensures none { IfNone result (is_without byte text.now ≡ true) }
{
    let place = place_of(text, byte)?;
    Some((&text[..place], &text[place + 1..]))
}

// The place of the first such byte.
fn place_of(text: &[u8], byte: u8) -> Option<usize>
    ensures place { result ≡ position (λ other. other == byte) text.now }
    ensures within { IfSome result (λ place. place < length text.now) }
{
    text.iter().position(|other| *other == byte)
}

/// The number of 16 bits that the text is, or None.
pub(crate) fn short_in(text: &[u8]) -> Option<u16>
    ensures found { IfSome result (λ number. IsNumber 0 65535 text.now number) }
    ensures none { IfNone result (IsNoNumber 0 65535 text.now) }
{
    u16::try_from(number_in(text)?).ok()
}
