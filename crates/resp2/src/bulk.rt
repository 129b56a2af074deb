//! The bytes of a bulk string, and the end of its line: of a word of a request, and of a reply.
ghost use Rattle.std.specs.Prelude.{◌≡◌, ◌+◌, ◌≤◌, length, take, drop, IfOk, IfErr, OnOk, OnErr};
ghost use Rattle.resp_header.specs.Reading.{Wants, Bad, Found};
ghost use Rattle.resp2.specs.Reading.{body_at};
ghost use Rattle.resp2.specs.Answers.{OnOkTrue, OnOkFalse};

use byte_string::ByteString;
use bytes::BytesMut;
use resp_header::Fault;
use std::alloc::AllocError;
use std::mem;
use std::sync::Arc;

/// From this length on, in bytes, a string may keep the block of input that it came in.
const LEAST_KEPT: usize = 4096;

/// Asks at once for the room that a whole word takes, so that a long one doesn't move as its bytes
/// come. Where that is refused, the input grows with them.
pub(crate) fn make_room(input: &mut BytesMut, len: usize)
    ensures { input.new.items ≡ input.old.items }
{
    let missing = len.saturating_add(2).saturating_sub(input.len());
    let _room = input.reserve(missing);
}

/// Whether the bytes begin with a word of this length and the end of its line.
pub(crate) fn is_whole(bytes: &[u8], len: usize) -> Result<bool, Fault>
    ensures whole { OnOkTrue result (body_at len bytes.now ≡ Found (take len bytes.now) (drop (len + 2) bytes.now)) }
    ensures long { OnOkTrue result (len + 2 ≤ length bytes.now) }
    ensures unfinished { OnOkFalse result (body_at len bytes.now ≡ Wants) }
    ensures err { IfErr result (λ fault. body_at len bytes.now ≡ Bad fault) }
{
    if bytes.len() <= len {
        return Ok(false);
    }
    if bytes[len] != b'\r' {
        return Err(Fault::Protocol);
    }
    if bytes.len() == len + 1 {
        return Ok(false);
    }
    if bytes[len + 1] != b'\n' {
        return Err(Fault::Protocol);
    }
    Ok(true)
}

/// Takes this many bytes off the front of the input, which stays as it is where memory is refused.
///
/// A long string that is nearly all of the input keeps its block, and isn't copied. Any other one is copied: it may be
/// kept for as long as its key lives, and would keep the whole block of input around it, which is often much larger.
#[inline(always)]
pub(crate) fn take_front(input: &mut BytesMut, len: usize) -> Result<ByteString, AllocError>
    requires { len ≤ length input.old.items }
    ensures front { IfOk result (λ string. string ≡ take len input.old.items) }
    ensures rest { OnOk result (input.new.items ≡ drop len input.old.items) }
    ensures err { OnErr result (input.new.items ≡ input.old.items) }
{
    if len >= LEAST_KEPT && input.len() - len <= len / 8 {
        return take_block(input, len);
    }
    let string = ByteString::copy_from_slice(*input.allocator(), &input.as_slice()[..len])?;
    input.advance(len);
    Ok(string)
}

// The same with the block of the input. All room is made first, so that a refusal leaves the input whole.
#[inline(never)]
fn take_block(input: &mut BytesMut, len: usize) -> Result<ByteString, AllocError>
    requires { len ≤ length input.old.items }
    ensures front { IfOk result (λ string. string ≡ take len input.old.items) }
    ensures rest { OnOk result (input.new.items ≡ drop len input.old.items) }
    ensures err { OnErr result (input.new.items ≡ input.old.items) }
{
    let alloc = *input.allocator();
    let mut buffer = Arc::new(alloc, Vec::new(alloc))?;
    let Some(place) = Arc::get_mut(&mut buffer) else {
        return Err(AllocError);
    };
    let rest = BytesMut::copy_from_slice(alloc, &input.as_slice()[len..])?;
    match mem::replace(input, rest).into_vec() {
        Ok(mut bytes) => {
            bytes.truncate(len);
            *place = bytes;
        }
        Err(refused) => {
            *input = refused.value;
            return Err(AllocError);
        }
    }
    Ok(ByteString::from_shared(buffer))
}
