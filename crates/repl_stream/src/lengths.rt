//! How many bytes a request has.
ghost use Rattle.std.specs.Prelude.{◌≡◌, ◌+◌, ◌<◌, ◌≤◌, ◌^◌, ℕ, decimal, length};
ghost use Rattle.resp_values.specs.Request.{bulk_spelling, header_spelling, request_spelling};
ghost use Rattle.resp_values.specs.declared.words.TheConstants.{MOST_WORD_BYTES};

use byte_string::ByteString;
use itoa::Buffer;
use resp_values::Words;

/// How many bytes the request has.
pub fn spelled_len(words: &Words) -> usize
    ensures { result ≡ length (request_spelling words.now) }
{
    let words = words.as_slice();
    let mut len = header_len(words.len());
    for word in words {
        len += bulk_len(word);
    }
    len
}

// How many bytes a request takes for this word.
fn bulk_len(word: &ByteString) -> usize
    requires { length word.now ≤ MOST_WORD_BYTES }
    ensures { result ≡ length (bulk_spelling word.now) }
{
    header_len(word.len()) + word.len() + 2
}

// How many bytes a number takes with its mark and the end of its line.
fn header_len(number: usize) -> usize
    ensures len { (mark : ℕ) → result ≡ length (header_spelling mark number) }
    ensures small { result < 2 ^ 63 + 3 }
{
    digits(number) + 3
}

// How many digits a number has. Most have one or two, and aren't spelled for this.
#[tactic(auto, using(crate::proofs::LengthLemmas::one_digit, crate::proofs::LengthLemmas::two_digits))]
fn digits(number: usize) -> usize
    ensures digits { result ≡ length (decimal number) }
    ensures small { result < 2 ^ 63 }
{
    if number < 10 {
        return 1;
    }
    if number < 100 {
        return 2;
    }
    Buffer::new().format(number).len()
}
