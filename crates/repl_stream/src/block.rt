//! The bytes of writes, as they stand in a stream and go to replicas.
ghost use Rattle.std.specs.Prelude.{◌≡◌, IfOk};
ghost use Rattle.resp2.specs.Stream.{stream_spelling};

use byte_string::ByteString;
use resp_values::Words;
use resp2::append_request;
use std::alloc::{AllocError, Global};

/// The bytes of the requests, one after another, in a string that its copies share from 249 bytes on: so the pieces that
/// bring them to replicas don't copy them.
#[tactic(auto, using(crate::proofs::BlockLemmas::one_more_spelled))]
pub fn block_of(alloc: Global, requests: &[Words]) -> Result<ByteString, AllocError>
    ensures { IfOk result (λ block. block ≡ stream_spelling requests.now) }
{
    let mut bytes = Vec::new(alloc);
    for words in requests {
        append_request(words.as_slice(), &mut bytes)?;
    }
    ByteString::from_vec(bytes)
}
