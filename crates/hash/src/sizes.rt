//! How many bytes words take in a request.
ghost use Rattle.std.specs.Prelude.{◌≡◌, ◌+◌, ◌<◌, ◌≤◌, ◌^◌, length, decimal};
ghost use Rattle.hash.specs.Packed.{IsShortWord};
ghost use Rattle.resp_values.specs.Request.{bulk_spelling};

use byte_string::ByteString;
use itoa::Buffer;

/// The number of bytes of the word as a bulk string: `$<length>\r\n<bytes>\r\n`.
pub fn bulk_size(word: &ByteString) -> u128
    ensures size { result ≡ length (bulk_spelling word.now) }
    ensures short { result < 2 ^ 63 + 2 ^ 5 }
{
    bytes_size(word.as_slice())
}

/// The same of these bytes.
pub(crate) fn bytes_size(bytes: &[u8]) -> u128
    ensures size { result ≡ length (bulk_spelling bytes.now) }
    ensures short { result < 2 ^ 63 + 2 ^ 5 }
{
    let mut digits = Buffer::new();
    let number = digits.format(bytes.len());
    (1 + number.len() + 2 + bytes.len() + 2) as u128
}

/// The same of so few bytes that they can be packed.
pub(crate) fn short_size(bytes: &[u8]) -> u16
    requires { IsShortWord bytes.now }
    ensures size { result ≡ length (bulk_spelling bytes.now) }
    ensures short { result < 2 ^ 9 }
{
    let len = bytes.len();
    (1 + digit_count(len) + 2 + len + 2) as u16
}

// How many digits so small a number has.
#[tactic(auto, using(crate::proofs::DigitLemmas::one_digit, crate::proofs::DigitLemmas::two_digits, crate::proofs::DigitLemmas::three_digits))]
fn digit_count(number: usize) -> usize
    requires { number < 1000 }
    ensures digits { result ≡ length (decimal number) }
    ensures few { result ≤ 3 }
{
    match number {
        0..=9 => 1,
        10..=99 => 2,
        _ => 3,
    }
}
