//! Whether two words are the same.
ghost use Rattle.std.specs.Prelude.{◌≡◌, length, nat_eq};
ghost use Rattle.std.specs.Cmp.Lexicographic.{pointwise};

use crate::reading::byte_at;

/// Up to so many bytes are compared one by one.
const MOST_ONE_BY_ONE: usize = 16;

/// Whether the words have the same bytes. Those of one hash often begin alike, so their lengths and their last bytes are
/// compared first.
pub fn alike(a: &[u8], b: &[u8]) -> bool
    ensures { result ≡ pointwise nat_eq b.now a.now }
{
    let len = a.len();
    if len != b.len() {
        return false;
    }
    if len == 0 {
        return true;
    }
    byte_at(a, len - 1) == byte_at(b, len - 1) && all_alike(a, b)
}

// The same of words of the same length.
fn all_alike(a: &[u8], b: &[u8]) -> bool
    requires { length a.now ≡ length b.now }
    ensures { result ≡ pointwise nat_eq b.now a.now }
{
    if a.len() > MOST_ONE_BY_ONE {
        return b == a;
    }
    let mut at = a.len();
    while at > 0 {
        at -= 1;
        if byte_at(a, at) != byte_at(b, at) {
            return false;
        }
    }
    true
}
