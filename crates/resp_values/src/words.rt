//! The words of one request, and their limits.
ghost use Rattle.std.specs.Prelude.{◌≡◌, ◌+◌, ◌<◌, ◌≤◌, ◌^◌, ℕ, All, length, slice_get, Some, IfSome, IsSome};
ghost use Rattle.std.specs.Bool.{OnTrue, OnFalse};
ghost use Rattle.resp_values.specs.Request.{IsRequest, bulk_spelling, header_spelling, request_spelling};

use byte_string::ByteString;
use itoa::Buffer;
use std::alloc::AllocError;
use std::marker::Model;

/// The most words of a request.
pub const MOST_WORDS: usize = 65_536;

/// The most bytes of a word: eight mebibytes.
pub const MOST_WORD_BYTES: usize = 8_388_608;

/// The most bytes of a request, its counts, lengths and line ends among them: 16 mebibytes.
pub const MOST_REQUEST_BYTES: usize = 16_777_216;

/// The words of one request, the command's name first: at least one, and within the limits.
#[derive(Debug)]
pub struct Words {
    items: Vec<ByteString>,
}

impl Model for Words {
    ghost use Rattle.std.specs.Prelude.{List, ℕ};
    ghost use Rattle.resp_values.specs.Request.{IsRequest};

    ghost Value = { List (List ℕ) };

    ghost view = { λ words. words.items.items };

    ghost invariant = { λ words. IsRequest words.items.items };
}

impl Drop for Words {
    fn drop(self) {
        let Words { items: _ } = self;
    }
}

impl Words {
    /// The words as a request, or None where there is no word or a limit is passed.
    pub fn new(items: Vec<ByteString>) -> Option<Words>
        ensures words { IfSome result (λ words. words ≡ items.items) }
        ensures request { IfSome result (λ words. IsRequest items.items) }
        ensures whole { IsRequest items.items → IsSome result }
    {
        if items.is_empty() || items.len() > MOST_WORDS {
            return None;
        }
        if items.iter().any(|word| word.len() > MOST_WORD_BYTES) {
            return None;
        }
        if !fit_in_request(items.as_slice()) {
            return None;
        }
        Some(Words { items })
    }

    /// The words, of which it is known that they are a request.
    pub fn of_items(items: Vec<ByteString>) -> Words
        requires { IsRequest items.items }
        ensures { result ≡ items.items }
    {
        Words { items }
    }

    /// The words in order.
    pub fn as_slice(&self) -> &[ByteString]
        ensures words { result.now ≡ self.now }
        ensures request { IsRequest self.now }
    {
        self.items.as_slice()
    }

    /// The first word, which names the command.
    pub fn name(&self) -> &ByteString
        ensures { slice_get self.now 0 ≡ Some result.now }
    {
        &self.items[0]
    }

    /// The words in order, to be taken apart.
    pub fn into_vec(self) -> Vec<ByteString>
        ensures words { result.items ≡ self }
        ensures request { IsRequest self }
    {
        let Words { items } = self;
        items
    }

    /// The number of words.
    pub fn len(&self) -> usize
        ensures { result ≡ length self.now }
    {
        self.items.len()
    }
}

impl Clone for Words {
    ghost is_clone = { λ words copy. copy ≡ words };

    fn clone(&self) -> Result<Words, AllocError> {
        let items = self.items.clone()?;
        Ok(Words { items })
    }
}

// Whether a request with these words has no more bytes than it may have.
fn fit_in_request(words: &[ByteString]) -> bool
    requires { All (λ word. length word ≤ MOST_WORD_BYTES) words.now }
    ensures fit { OnTrue result (length (request_spelling words.now) ≤ MOST_REQUEST_BYTES) }
    ensures not { OnFalse result (MOST_REQUEST_BYTES < length (request_spelling words.now)) }
{
    let mut len = header_len(words.len());
    for word in words {
        if len > MOST_REQUEST_BYTES {
            return false;
        }
        len += bulk_len(word);
    }
    len <= MOST_REQUEST_BYTES
}

// How many bytes a request takes for this word.
fn bulk_len(word: &ByteString) -> usize
    requires { length word.now ≤ MOST_WORD_BYTES }
    ensures len { result ≡ length (bulk_spelling word.now) }
    ensures small { result < 2 ^ 63 + 2 ^ 24 }
{
    header_len(word.len()) + word.len() + 2
}

// How many bytes a number takes with its mark and the end of its line.
fn header_len(number: usize) -> usize
    ensures len { (mark : ℕ) → result ≡ length (header_spelling mark number) }
    ensures small { result < 2 ^ 63 + 3 }
{
    Buffer::new().format(number).len() + 3
}
