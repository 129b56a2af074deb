//! Requests from bytes that come in any pieces.
ghost use Rattle.std.specs.Prelude.{◌≡◌, ◌+◌, ◌<◌, ◌≤◌, [], ◌++◌, length, take, Some, None, Ok, Err, IfOk, IfErr, IfNone, OnOk, OnErr, unwrap_or};
ghost use Rattle.resp_header.specs.declared.fault.Fault.TheVariants.{Memory, TooLong};
ghost use Rattle.resp_values.specs.declared.words.TheConstants.{MOST_REQUEST_BYTES};
ghost use Rattle.resp_header.specs.Reading.{Wants};
ghost use Rattle.resp2.specs.Reading.{reading};
ghost use Rattle.resp2.specs.Reader.{HandsOut, Waits, FailsBy, remembered, FailsAgainBy};
ghost use Rattle.resp2.specs.Progress.{Takes, TakesAll, Refuses, IsProgress, IsWhole, IsCounted, IsCountedOrBroken, FaultOfFront, BeginsOr, partial_of, fault_of, pending_of, words_of, FailsFor, HasFault, SamePending, request_ahead};
ghost use Rattle.resp2.specs.Answers.{IfOkSome, OnOkNone, OnOkTrue};

use crate::words::{Frame, Partial};
use bytes::BytesMut;
use resp_header::Fault;
use resp_values::{MOST_REQUEST_BYTES, Words};
use std::alloc::{AllocError, Global};
use std::marker::Model;
use std::mem;

/// A reader of requests: `feed` it bytes as they come, and take requests by `next` until there is
/// none.
///
/// A header or a word that is whole is consumed at once, so that each byte is looked at a few times
/// at most, however the bytes are cut.
pub struct Reader {
    /// What was fed and not yet consumed.
    input: BytesMut,
    /// What was consumed before that, and not yet handed out.
    progress: Progress,
    /// How many bytes that is.
    consumed: usize,
}

/// How far a reader is.
#[derive(Drop)]
enum Progress {
    /// Between two requests: the input begins with a request's header.
    Between,
    /// In a request: the input begins with the words that it lacks.
    Reading(Partial),
    /// At a bad byte, for good. What was read of its request stays, so that the bytes that were
    /// not handed out are still those that were fed.
    Broken(Fault, Option<Partial>),
}

impl Model for Reader {
    ghost use Rattle.resp2.specs.Reader.{ReaderState};

    ghost Value = { ReaderState };

    ghost use Rattle.resp2.specs.Progress.{IsProgress, IsCountedOrBroken, pending_of, fault_of};

    ghost view = { λ reader. record {
      pending = pending_of reader.progress reader.input.items;
      fault = fault_of reader.progress;
    } };

    ghost invariant = { λ reader. IsProgress reader.progress × IsCountedOrBroken reader.consumed reader.progress reader.input.items };
}

// It does what the derive would. Written out it is one call wherever a reader is let go, and not a
// `match` over its progress, which the proofs of those functions would have to look at.
impl Drop for Reader {
    fn drop(self) {
        let Reader {
            input: _input,
            progress: _progress,
            consumed: _,
        } = self;
    }
}

impl Reader {
    /// A reader that was fed nothing. It allocates as bytes come.
    pub fn new(alloc: Global) -> Reader
        ensures pending { result.pending ≡ [] }
        ensures sound { result.fault ≡ None }
    {
        Reader {
            input: BytesMut::new(alloc),
            progress: Progress::Between,
            consumed: 0,
        }
    }

    /// A reader that was fed these bytes. It has room for no others, so it is the one to take where no more are to come.
    pub fn fed(alloc: Global, bytes: &[u8]) -> Result<Reader, AllocError>
        ensures { IfOk result (λ reader. reader ≡ record { pending = bytes.now; fault = None }) }
    {
        let input = BytesMut::copy_from_slice(alloc, bytes)?;
        Ok(Reader {
            input,
            progress: Progress::Between,
            consumed: 0,
        })
    }

    /// Takes the next bytes, all of them or none.
    ///
    /// An error is the fault that a `next` found, or `Fault::Memory`.
    pub fn feed(&mut self, bytes: &[u8]) -> Result<(), Fault>
        ensures sound { OnOk result (self.old.fault ≡ None) }
        ensures fed { OnOk result (self.new ≡ record self.old { pending = self.old.pending ++ bytes.now }) }
        ensures fault { IfErr result (λ fault. fault ≡ unwrap_or self.old.fault Fault.Memory) }
        ensures unchanged { OnErr result (self.new ≡ self.old) }
    {
        self.progress.check()?;
        self.input.extend_from_slice(bytes)?;
        Ok(())
    }

    /// The request in front, once it is whole, or None where more bytes have to come. One without words is passed over.
    ///
    /// After `Fault::Memory` the call can be made again: nothing is lost. Another error is what is
    /// wrong with the first byte after which no request can come, and it ends the reader.
    pub fn next(&mut self) -> Result<Option<Words>, Fault>
        ensures request { IfOkSome result (λ words. HandsOut self.old words self.new) }
        ensures unfinished { OnOkNone result (Waits self.old self.new) }
        ensures fault { IfErr result (λ fault. IfNone self.old.fault (FailsBy fault self.old self.new)) }
        ensures again { IfErr result (λ fault. FailsAgainBy fault self.old self.new) }
    {
        self.progress.check()?;
        'requests: loop {
            let Some(frame) = take_request(&mut self.progress, &mut self.input, &mut self.consumed)?
            else {
                return Ok(None);
            };
            if let Some(words) = frame.into_words() {
                return Ok(Some(words));
            }
        }
    }
}

// Takes the request in front, perhaps one without words, once it is whole. A fault of the bytes is kept.
fn take_request(
    progress: &mut Progress,
    input: &mut BytesMut,
    consumed: &mut usize,
) -> Result<Option<Frame>, Fault>
    requires progress { IsProgress progress.old }
    requires sound { fault_of progress.old ≡ None }
    requires counted { IsCounted consumed.old progress.old input.old.items }
    ensures takes { Takes result (reading (pending_of progress.old input.old.items)) (pending_of progress.new input.new.items) }
    ensures unfinished { OnOkNone result (SamePending progress.old input.old progress.new input.new) }
    ensures unchanged { OnErr result (SamePending progress.old input.old progress.new input.new) }
    ensures sound { OnOk result (fault_of progress.new ≡ None) }
    ensures fault { IfErr result (λ fault. fault_of progress.new ≡ remembered fault) }
    ensures progress { IsProgress progress.new }
    ensures counted { IsCountedOrBroken consumed.new progress.new input.new.items }
{
    let pending = *consumed + input.len();
    let taken = progress.take_words(input);
    *consumed = pending - input.len();
    match taken {
        Ok(true) => Ok(Some(hand_out(progress, consumed)?)),
        Ok(false) => {
            wait(progress, pending)?;
            Ok(None)
        }
        Err(fault) => {
            let fault = first_fault(fault, progress, input, *consumed);
            *consumed = pending - input.len();
            progress.stop_at(fault);
            Err(fault)
        }
    }
}

// Hands out a request that came whole, unless it has more bytes than it may have.
fn hand_out(progress: &mut Progress, consumed: &mut usize) -> Result<Frame, Fault>
    requires progress { IsProgress progress.old }
    requires whole { IsWhole progress.old }
    ensures few { OnOk result (consumed.old ≤ MOST_REQUEST_BYTES) }
    ensures frame { IfOk result (λ frame. frame ≡ words_of progress.old) }
    ensures again { OnOk result ((progress.new ≡ Progress.Between) × (consumed.new ≡ 0)) }
    ensures many { IfErr result (λ fault. (fault ≡ TooLong) × (MOST_REQUEST_BYTES < consumed.old)) }
    ensures broken { OnErr result (fault_of progress.new ≡ Some TooLong) }
    ensures kept { OnErr result (partial_of progress.new ≡ partial_of progress.old) }
{
    if *consumed > MOST_REQUEST_BYTES {
        progress.stop_at(Fault::TooLong);
        return Err(Fault::TooLong);
    }
    let Progress::Reading(partial) = mem::replace(progress, Progress::Between) else {
        unreachable!();
    };
    *consumed = 0;
    Ok(partial.into_frame())
}

// Waits for more bytes of a request, unless more came than it may have: `pending` are all that were fed and not handed out.
fn wait(progress: &mut Progress, pending: usize) -> Result<(), Fault>
    requires { fault_of progress.old ≡ None }
    ensures few { OnOk result ((progress.new ≡ progress.old) × (pending ≤ MOST_REQUEST_BYTES)) }
    ensures many { IfErr result (λ fault. (fault ≡ TooLong) × (MOST_REQUEST_BYTES < pending)) }
    ensures broken { OnErr result (fault_of progress.new ≡ Some TooLong) }
    ensures kept { OnErr result (partial_of progress.new ≡ partial_of progress.old) }
{
    if pending > MOST_REQUEST_BYTES {
        progress.stop_at(Fault::TooLong);
        return Err(Fault::TooLong);
    }
    Ok(())
}

// The fault of the first bad byte. The one at hand may be behind the first byte that is too many for a request.
#[inline(never)]
fn first_fault(
    fault: Fault,
    progress: &mut Progress,
    input: &mut BytesMut,
    consumed: usize,
) -> Fault
    requires progress { IsProgress progress.old }
    requires sound { fault_of progress.old ≡ None }
    requires counted { consumed + length input.old.items ≡ length (pending_of progress.old input.old.items) }
    requires refuses { Refuses fault (request_ahead progress.old input.old.items) }
    ensures refuses { Refuses result (reading (pending_of progress.old input.old.items)) }
    ensures few { result ≡ Memory → consumed + length input.old.items ≤ MOST_REQUEST_BYTES + 1 + length input.new.items }
    ensures kept { SamePending progress.old input.old progress.new input.new }
    ensures progress { IsProgress progress.new }
    ensures sound { fault_of progress.new ≡ None }
    ensures shrinks { length input.new.items ≤ length input.old.items }
{
    if consumed > MOST_REQUEST_BYTES {
        return Fault::TooLong;
    }
    if fault == Fault::Memory {
        return fault;
    }
    let len = MOST_REQUEST_BYTES - consumed + 1;
    if input.len() <= len {
        return fault;
    }
    fault_within(progress, input, len)
}

// The fault of the first bad byte among the first `len` bytes of the input, which are as many as the request may have and one
// more. Where nothing else is wrong with them, the last one is too many.
fn fault_within(progress: &mut Progress, input: &mut BytesMut, len: usize) -> Fault
    requires progress { IsProgress progress.old }
    requires sound { fault_of progress.old ≡ None }
    requires within { len < length input.old.items }
    requires bad { HasFault (request_ahead progress.old input.old.items) }
    ensures fault { FaultOfFront result (request_ahead progress.old (take len input.old.items)) }
    ensures kept { SamePending progress.old input.old progress.new input.new }
    ensures progress { IsProgress progress.new }
    ensures sound { fault_of progress.new ≡ None }
    ensures shrinks { length input.new.items ≤ length input.old.items }
    ensures few { length input.old.items ≤ length input.new.items + len }
{
    let Ok(mut front) = BytesMut::copy_from_slice(*input.allocator(), &input.as_slice()[..len])
    else {
        return Fault::Memory;
    };
    let taken = progress.take_words(&mut front);
    input.advance(len - front.len());
    match taken {
        Ok(_) => Fault::TooLong,
        Err(fault) => fault,
    }
}

impl Progress {
    /// The fault that was found, as an error.
    fn check(&self) -> Result<(), Fault>
        ensures ok { OnOk result (fault_of self.now ≡ None) }
        ensures err { IfErr result (λ fault. fault_of self.now ≡ Some fault) }
    {
        match self {
            Progress::Between | Progress::Reading(_) => Ok(()),
            Progress::Broken(fault, _) => Err(*fault),
        }
    }

    /// Takes the words of the request in front, however many bytes it has, and says whether those are all.
    fn take_words(&mut self, input: &mut BytesMut) -> Result<bool, Fault>
        requires progress { IsProgress self.old }
        requires sound { fault_of self.old ≡ None }
        ensures takes { TakesAll result (request_ahead self.old input.old.items) (words_of self.new) input.new.items }
        ensures whole { OnOkTrue result (IsWhole self.new) }
        ensures kept { SamePending self.old input.old self.new input.new }
        ensures sound { fault_of self.new ≡ None }
        ensures progress { IsProgress self.new }
        ensures shrinks { length input.new.items ≤ length input.old.items }
    {
        self.begin(input)?;
        let Progress::Reading(partial) = self else {
            return Ok(false);
        };
        partial.take_words(input)
    }

    /// Reads the header of the request in front, where it is the next to be read and whole.
    fn begin(&mut self, input: &mut BytesMut) -> Result<(), Fault>
        requires progress { IsProgress self.old }
        requires sound { fault_of self.old ≡ None }
        ensures begins { OnOk result (BeginsOr self.new (request_ahead self.old input.old.items ≡ Wants)) }
        ensures err { FailsFor result (request_ahead self.old input.old.items) }
        ensures kept { SamePending self.old input.old self.new input.new }
        ensures sound { fault_of self.new ≡ None }
        ensures progress { IsProgress self.new }
        ensures shrinks { length input.new.items ≤ length input.old.items }
    {
        match self {
            Progress::Between => {
                let Some(partial) = Partial::begin(input)? else {
                    return Ok(());
                };
                *self = Progress::Reading(partial);
                Ok(())
            }
            Progress::Reading(_) => Ok(()),
            Progress::Broken(..) => unreachable!(),
        }
    }

    /// Stops at a bad byte for good. Refused memory passes.
    fn stop_at(&mut self, fault: Fault)
        ensures partial { partial_of self.new ≡ partial_of self.old }
        ensures fault { fault_of self.old ≡ None → fault_of self.new ≡ remembered fault }
        ensures progress { IsProgress self.old → IsProgress self.new }
    {
        match fault {
            Fault::Protocol | Fault::TooLong => {
                let partial = mem::replace(self, Progress::Between).into_partial();
                *self = Progress::Broken(fault, partial);
            }
            Fault::Memory => {}
        }
    }

    /// What was read of a request.
    fn into_partial(self) -> Option<Partial>
        ensures { result ≡ partial_of self }
    {
        match self {
            Progress::Between => None,
            Progress::Reading(partial) => Some(partial),
            Progress::Broken(_, partial) => partial,
        }
    }
}
