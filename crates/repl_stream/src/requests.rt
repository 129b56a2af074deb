//! The whole requests in bytes, one after another, and what they change.
ghost use Rattle.std.specs.Prelude.{◌≡◌, ◌≢◌, ◌≤◌, None, length, drop, IfOk, IfSome, IfNone, OnOk};
ghost use Rattle.bus.specs.Reading.{BeginsWithRequest};
ghost use Rattle.repl_stream.specs.Reading.{HandsOut, Plans, PlansWords};
ghost use Rattle.resp_header.specs.declared.fault.Fault.TheVariants.{Memory};
ghost use Rattle.resp_values.specs.Request.{request_spelling};

use crate::lengths::spelled_len;
use command::{Command, parse};
use key_commands::plan_command;
use keyspace::{Plan, Store};
use resp_values::Words;
use resp2::{Fault, Reader, no_spelling_begins_another, no_unfinished_is_whole};
use std::alloc::{AllocError, Global};

/// Plans the whole requests in front of the bytes, and returns the rest.
pub fn plan_requests<'b, S: Store>(
    alloc: Global,
    store: &S,
    plan: &mut Plan,
    bytes: &'b [u8],
) -> Result<&'b [u8], AllocError>
    ensures { IfOk result
        (λ rest. Plans (S.contents store.now) plan.old bytes.now plan.new rest.now) }
{
    let mut reader = Reader::fed(alloc, bytes)?;
    let mut rest = bytes;
    'requests: loop {
        let Some(words) = next_request(&mut reader, rest)? else {
            return Ok(rest);
        };
        plan_words(alloc, store, plan, &words)?;
        rest = behind(&words, rest);
    }
}

// The request in front of the bytes, which are those that the reader holds, or None where no whole one is there.
//
// The reader passes over requests without words and goes on behind them. None is written to a stream, so here nothing comes
// behind one.
fn next_request(reader: &mut Reader, bytes: &[u8]) -> Result<Option<Words>, AllocError>
    requires { reader.old ≡ record { pending = bytes.now; fault = None } }
    ensures request { IfOk result
        (λ found. IfSome found (λ words. HandsOut bytes.now words reader.new)) }
    ensures none { IfOk result (λ found. IfNone found (¬ BeginsWithRequest bytes.now)) }
{
    no_spelling_begins_another();
    no_unfinished_is_whole();
    // Mostly the last request ends the bytes, so the reader isn't asked for one behind it.
    if bytes.is_empty() {
        return Ok(None);
    }
    if bytes.starts_with(b"*0\r\n") {
        return Ok(None);
    }
    match reader.next() {
        Ok(found) => Ok(found),
        Err(fault) => {
            check(fault)?;
            Ok(None)
        }
    }
}

// Whether the fault is one of the bytes.
fn check(fault: Fault) -> Result<(), AllocError>
    ensures { OnOk result (fault ≢ Memory) }
{
    match fault {
        Fault::Memory => Err(AllocError),
        Fault::Protocol | Fault::TooLong => Ok(()),
    }
}

// The bytes behind the request in front of them.
fn behind<'b>(words: &Words, bytes: &'b [u8]) -> &'b [u8]
    requires { length (request_spelling words.now) ≤ length bytes.now }
    ensures { result.now ≡ drop (length (request_spelling words.now)) bytes.now }
{
    &bytes[spelled_len(words)..]
}

// Words that are no command on keys execute nothing.
fn plan_words<S: Store>(
    alloc: Global,
    store: &S,
    plan: &mut Plan,
    words: &Words,
) -> Result<(), AllocError>
    ensures { OnOk result (PlansWords (S.contents store.now) plan.old words.now plan.new) }
{
    if let Ok(Command::Data(command)) = parse(words) {
        let _reply = plan_command(alloc, store, plan, &command)?;
    }
    Ok(())
}
