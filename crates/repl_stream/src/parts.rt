//! Parts of bytes that stand in one run.
ghost use Rattle.std.specs.Prelude.{◌≡◌, ◌≤◌, length, take, drop};

/// The first bytes, as many as that.
pub fn front(bytes: &[u8], len: u64) -> &[u8]
    requires { len ≤ length bytes.now }
    ensures { result.now ≡ take len bytes.now }
{
    &bytes[..len as usize]
}

/// At most so many of the bytes, without those in front. There may be none.
pub fn part(bytes: &[u8], before: u64, most: usize) -> &[u8]
    ensures { result.now ≡ take most (drop before bytes.now) }
{
    if before >= bytes.len() as u64 {
        return &[];
    }
    let bytes = &bytes[before as usize..];
    &bytes[..bytes.len().min(most)]
}
