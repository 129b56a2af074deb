//! Reading one byte.
ghost use Rattle.std.specs.Prelude.{◌≡◌, ◌<◌, length, get_or};

/// The byte at the place. It is the first of those from there on, which needs no arithmetic on addresses.
pub fn byte_at(bytes: &[u8], at: usize) -> u8
    requires { at < length bytes.now }
    ensures { result ≡ get_or bytes.now at 0 }
{
    bytes[at..][0]
}
