//! The slot of a key, and the hash tag: the part of the key that decides its slot.
ghost use Rattle.std.specs.Prelude.{◌≡◌, ◌<◌, ◌==◌, List, ℕ, length, position, IfSome, option_copied};
ghost use Rattle.key_slot.specs.HashTag.{braced, hash_tag, IsTagOf};
ghost use Rattle.key_slot.specs.Slot.{IsSlotOf, hash_slot};

use crate::crc16_table::crc16;
use crate::slots::Slot;

/// The slot of a key: the CRC16 of its tag, modulo 16384. It takes no memory.
#[tactic(auto, unfolding(crate::specs::Slot::hash_slot))]
pub fn slot(key: &[u8]) -> Slot
    ensures slot { IsSlotOf key.now result }
    ensures only { (other : ℕ) → IsSlotOf key.now other → other ≡ result }
    ensures value { result ≡ hash_slot key.now }
{
    Slot::of_crc(crc16(tag(key)))
}

/// The bytes between the first `{` and the first `}` after it, where there are such braces and a byte between them;
/// else the whole key.
///
/// Keys with the same tag have the same slot. It takes no memory.
pub fn tag(key: &[u8]) -> &[u8]
    ensures tag { IsTagOf key.now result.now }
    ensures only { (other : List ℕ) → IsTagOf key.now other → other ≡ result.now }
    ensures value { result.now ≡ hash_tag key.now }
{
    between_braces(key).unwrap_or(key)
}

fn between_braces(key: &[u8]) -> Option<&[u8]>
    ensures { option_copied result ≡ braced key.now }
{
    let open = position_of(b'{', key)?;
    let rest = &key[open + 1..];
    let close = position_of(b'}', rest)?;
    if close == 0 {
        return None;
    }
    Some(&rest[..close])
}

fn position_of(byte: u8, bytes: &[u8]) -> Option<usize>
    ensures first { result ≡ position (λ b. b == byte) bytes.now }
    ensures within { IfSome result (λ i. i < length bytes.now) }
{
    bytes.iter().position(|other| *other == byte)
}
