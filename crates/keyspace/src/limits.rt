//! Which values a request can make at a key, and which hashes may so be left there.
ghost use Rattle.std.specs.Prelude.{◌≡◌, ◌∷◌, ◌<◌, ◌^◌, ◌-◌, [], ℕ, List, codes, length, min};
ghost use Rattle.std.specs.List.{list_all};
ghost use Rattle.hash.specs.Pairs.{Pairs};
ghost use Rattle.hash.specs.Size.{size_of};
ghost use Rattle.keyspace.specs.Rebuilding.{fits_hash, fits_request, rebuilding};
ghost use Rattle.keyspace.specs.Strings.{fits_string};
ghost use Rattle.resp_values.specs.Request.{header_spelling};

use crate::pairs::Pair;
use crate::value::Value;
use byte_string::ByteString;
use hash::{Extent, Hash, bulk_size};
use itoa::Buffer;
use resp_values::{MOST_REQUEST_BYTES, MOST_WORD_BYTES, MOST_WORDS};

/// The most fields of a hash: its request has two words for each, beside HSET and the key.
const MOST_FIELDS: usize = 32_767;

/// Whether the request that makes the key with this value has neither too many words nor too many bytes.
///
/// The request isn't made, since a hash keeps its size. How long each single word is isn't asked.
pub fn value_fits(key: &ByteString, value: &Value) -> bool
    ensures { result ≡ fits_request (rebuilding key.now value.now) }
{
    match value {
        Value::Str(bytes) => string_fits(key, bytes),
        Value::Hash(hash) => hash_fits(key, extent_of(hash)),
    }
}

/// Whether that holds of each of these keys with its value.
pub fn pairs_fit(pairs: &[Pair]) -> bool
    ensures { result ≡ list_all (λ pair. fits_request (rebuilding pair.0 pair.1)) pairs.now }
{
    pairs
        .iter()
        .all(|pair| value_fits(pair.key(), pair.value()))
}

// Whether SET with the key and the string has no more bytes than a request may have.
fn string_fits(key: &ByteString, bytes: &ByteString) -> bool
    ensures { result ≡ fits_request (codes "SET" ∷ key.now ∷ bytes.now ∷ []) }
{
    let name = ByteString::inline(b"SET");
    let size = count_size(3) + bulk_size(&name) + bulk_size(key) + bulk_size(bytes);
    size <= MOST_REQUEST_BYTES as u128
}

/// Whether a string of that length may be left at the key.
pub fn length_fits(key: &ByteString, len: usize) -> bool
    ensures { (bytes : List ℕ) → len ≡ min (length bytes) (2 ^ 64 - 1) → result ≡ fits_string key.now bytes }
{
    if len > MOST_WORD_BYTES {
        return false;
    }
    let name = ByteString::inline(b"SET");
    let around = count_size(3) + bulk_size(&name) + bulk_size(key);
    let size = around + count_size(len) + len as u128 + 2;
    size <= MOST_REQUEST_BYTES as u128
}

// What the hash takes now.
fn extent_of(hash: &Hash) -> Extent
    ensures len { result.len ≡ length hash.now }
    ensures size { result.size ≡ size_of hash.now }
{
    Extent {
        len: hash.len(),
        size: hash.size(),
    }
}

/// Whether a hash of this extent may be left at the key.
pub fn hash_fits(key: &ByteString, extent: Extent) -> bool
    ensures { (pairs : Pairs) → extent.len ≡ length pairs → extent.size ≡ size_of pairs → result ≡ fits_hash key.now pairs }
{
    if extent.len > MOST_FIELDS {
        return false;
    }
    let name = ByteString::inline(b"HSET");
    let around = count_size(2 + 2 * extent.len) + bulk_size(&name) + bulk_size(key);
    let most = MOST_REQUEST_BYTES as u128;
    if around > most {
        return false;
    }
    extent.size <= most - around
}

// How many bytes the count of words takes, with its mark and the end of its line.
fn count_size(count: usize) -> u128
    ensures size { (mark : ℕ) → result ≡ length (header_spelling mark count) }
    ensures small { result < 2 ^ 32 }
{
    (Buffer::new().format(count).len() + 3) as u128
}
