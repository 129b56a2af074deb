//! Numbers in words: of 64 bits with a sign, of at least 0, and of at least 1.
ghost use Rattle.std.specs.Prelude.{◌≡◌, ◌<◌, ◌^◌, IfSome};
ghost use Rattle.command_table.specs.Numbers.{count_of, number_of, positive_of};

use itoa::Buffer;
use key_slot::MoveNo;

/// The number that the text is, or None.
pub fn number_in(text: &[u8]) -> Option<i64>
    ensures { result ≡ number_of text.now }
{
    let number = str::from_utf8(text).ok()?.parse::<i64>().ok()?;
    // Rust also reads texts with a plus or a leading zero, and `-0`.
    if Buffer::new().format(number).as_bytes() != text {
        return None;
    }
    Some(number)
}

/// The number of at least 0 that the text is, or None.
pub fn count_in(text: &[u8]) -> Option<u64>
    ensures count { result ≡ count_of text.now }
    ensures below { IfSome result (λ count. count < 2 ^ 63) }
{
    u64::try_from(number_in(text)?).ok()
}

/// The number of at least 1 that the text is, or None.
pub fn positive_in(text: &[u8]) -> Option<u64>
    ensures number { result ≡ positive_of text.now }
    ensures below { IfSome result (λ number. number < 2 ^ 63) }
{
    match count_in(text)? {
        0 => None,
        number => Some(number),
    }
}

/// The number of a move that the text is, which is at least 1, or None.
pub fn move_no_in(text: &[u8]) -> Option<MoveNo>
    ensures { result ≡ positive_of text.now }
{
    MoveNo::new(positive_in(text)?)
}
