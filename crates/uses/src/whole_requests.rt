//! All requests of a slice: what a reader hands out is what the bytes spell.
ghost use Rattle.std.specs.Prelude.{IfOk, IfErr};
ghost use Rattle.uses.specs.WholeRequests.{AreAllRequests, AreRefusedBy};

use resp2::{Fault, Reader, Words, a_stream_is_read_in_one_way, no_unfinished_is_whole};
use std::alloc::Global;

/// All requests that the bytes spell, in order. What follows them is the beginning of one.
///
/// Protocol and TooLong say that a bad byte follows them.
pub fn all_requests(alloc: Global, input: &[u8]) -> Result<Vec<Words>, Fault>
    ensures all { IfOk result (λ requests. AreAllRequests input.now requests.items) }
    ensures fault { IfErr result (λ fault. AreRefusedBy fault input.now) }
{
    let mut reader = Reader::new(alloc);
    reader.feed(input)?;
    let mut requests = Vec::new(alloc);
    while let Some(words) = reader.next()? {
        let Ok(()) = requests.push(words) else {
            return Err(Fault::Memory);
        };
    }
    // Nothing whole is left, and there is no other reading.
    no_unfinished_is_whole();
    a_stream_is_read_in_one_way();
    Ok(requests)
}
