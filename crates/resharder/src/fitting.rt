//! How many keys one request can name.
ghost use Rattle.std.specs.Prelude.{◌≡◌, ◌+◌, ◌<◌, ◌≤◌, ◌&&◌, ℕ, List, [], decimal, length, nat_le, take};
ghost use Rattle.resp_values.specs.Request.{IsRequest, bulk_spelling, bulks_spelling, header_spelling};
ghost use Rattle.resp_values.specs.declared.words.TheConstants.{MOST_REQUEST_BYTES, MOST_WORD_BYTES, MOST_WORDS};
ghost use Rattle.resharder.specs.Migration.{keys_at_once};
ghost use Rattle.resharder.specs.Orders.{migrate_words};

use crate::key::Key;
use itoa::Buffer;
use redirection::Address;
use resp_values::{MOST_REQUEST_BYTES, MOST_WORD_BYTES, MOST_WORDS};

// So many words of MIGRATE stand before the keys.
const WORDS_BEFORE: usize = 7;

/// How many of the keys, from the front, one MIGRATE to the node can name.
pub(crate) fn count_at_once(to: &Address, keys: &[Key]) -> usize
    ensures count { take result keys.now ≡ keys_at_once to.now keys.now }
    ensures request { IsRequest (migrate_words to.now (take result keys.now)) }
    ensures some { 0 < length keys.now → 0 < result }
{
    let mut len = len_before(to);
    for (place, key) in keys.iter().enumerate() {
        len += bulk_len(key.len());
        if !is_request(WORDS_BEFORE + place + 1, len) {
            return place;
        }
    }
    keys.len()
}

// Whether a request of so many words keeps the limits, if the words take so many bytes.
fn is_request(count: usize, len: usize) -> bool
    ensures { result ≡ (nat_le count MOST_WORDS && nat_le (length (header_spelling 42 count) + len) MOST_REQUEST_BYTES) }
{
    count <= MOST_WORDS && len <= MOST_REQUEST_BYTES - header_len(count)
}

// How many bytes the words of MIGRATE take that stand before the keys.
fn len_before(to: &Address) -> usize
    ensures len { result ≡ length (bulks_spelling (migrate_words to.now [])) }
    ensures small { result ≤ 500 }
    ensures host { length to.now.host ≤ 255 }
    ensures port { length (decimal to.now.port) ≤ 20 }
{
    bulk_len("MIGRATE".len())
        + bulk_len(to.host().as_slice().len())
        + bulk_len(Buffer::new().format(to.port()).len())
        + bulk_len(0)
        + bulk_len("0".len())
        + bulk_len("100".len())
        + bulk_len("KEYS".len())
}

// How many bytes a request takes for a word of that length.
fn bulk_len(len: usize) -> usize
    requires { len ≤ MOST_WORD_BYTES }
    ensures len { (word : List ℕ) → length word ≡ len → result ≡ length (bulk_spelling word) }
    ensures small { result ≤ len + 25 }
{
    header_len(len) + len + 2
}

// How many bytes a number takes with its mark and the end of its line.
fn header_len(number: usize) -> usize
    ensures len { (mark : ℕ) → result ≡ length (header_spelling mark number) }
    ensures small { result ≤ 23 }
{
    Buffer::new().format(number).len() + 3
}
