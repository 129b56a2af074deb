//! Sums of numbers of 64 bits with a sign, and their texts.
ghost use Rattle.std.specs.Prelude.{◌≡◌, ◌+ℤ◌, IfOk};
ghost use Rattle.std.specs.Fmt.{signed_decimal};
ghost use Rattle.keyspace.specs.Numbers.{fitting_number};

use byte_string::ByteString;
use itoa::Buffer;
use std::alloc::{AllocError, Global};

/// The sum, or None where it does not fit.
#[tactic(auto, using(crate::proofs::Sums::fitting_from))]
pub(crate) fn sum(stored: i64, increment: i64) -> Option<i64>
    ensures { result ≡ fitting_number (stored +ℤ increment) }
{
    stored.checked_add(increment)
}

/// The text of the number.
pub(crate) fn text_of(alloc: Global, number: i64) -> Result<ByteString, AllocError>
    ensures { IfOk result (λ text. text ≡ signed_decimal number) }
{
    ByteString::copy_from_slice(alloc, Buffer::new().format(number).as_bytes())
}
