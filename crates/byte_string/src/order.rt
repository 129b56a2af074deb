//! The order of two lists of bytes, eight bytes at a time.
ghost use Rattle.std.specs.Prelude.{◌≡◌, ◌+◌, ◌≤◌, length, min, take, drop};
ghost use Rattle.std.specs.Ordering.{nat_cmp};
ghost use Rattle.std.specs.Cmp.Lexicographic.{slice_cmp};
ghost use Rattle.byte_string.specs.Order.{big_endian};

use std::cmp::Ordering;

/// Byte by byte, and a list that another begins with comes first.
// Always inlined, so that at two arrays it becomes a few comparisons with no loop.
#[inline(always)]
pub(crate) fn order(a: &[u8], b: &[u8]) -> Ordering
    ensures { result ≡ slice_cmp nat_cmp a.now b.now }
{
    let both = a.len().min(b.len());
    if both < 8 {
        return order_few(a, b, both);
    }
    let last = both - 8;
    let mut at = 0;
    while at < last {
        let (x, y) = (word(a, at), word(b, at));
        if x != y {
            return x.cmp(&y);
        }
        at += 8;
    }
    // The last word ends where the shorter list does, and may repeat bytes that are alike.
    let (x, y) = (word(a, last), word(b, last));
    if x != y {
        return x.cmp(&y);
    }
    a.len().cmp(&b.len())
}

// The same at fewer than eight bytes.
fn order_few(a: &[u8], b: &[u8], both: usize) -> Ordering
    requires { both ≡ min (length a.now) (length b.now) }
    ensures { result ≡ slice_cmp nat_cmp a.now b.now }
{
    for i in 0..both {
        if a[i] != b[i] {
            return a[i].cmp(&b[i]);
        }
    }
    a.len().cmp(&b.len())
}

// The eight bytes from i on as a number, the greatest digit first: so numbers lie as the bytes do.
fn word(bytes: &[u8], i: usize) -> u64
    requires { i + 8 ≤ length bytes.now }
    ensures { result ≡ big_endian 0 (take 8 (drop i bytes.now)) }
{
    u64::from_be_bytes([
        bytes[i],
        bytes[i + 1],
        bytes[i + 2],
        bytes[i + 3],
        bytes[i + 4],
        bytes[i + 5],
        bytes[i + 6],
        bytes[i + 7],
    ])
}
