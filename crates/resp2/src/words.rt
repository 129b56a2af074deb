//! The words of a request as they come: those that came whole, and a request of which some are still to come.
ghost use Rattle.std.specs.Prelude.{◌≡◌, ◌<◌, ◌≤◌, [], length, take, Some, None, IfErr, IfSome, IfNone, OnErr, vec_len, vec_capacity};
ghost use Rattle.resp_values.specs.Request.{IsRequest, KeepsLimits};
ghost use Rattle.resp_header.specs.Reading.{Wants, Bad};
ghost use Rattle.resp2.specs.Reading.{body_at, word_at, reading_words};
ghost use Rattle.resp2.specs.Progress.{TakesWord, TakesAll, HasLen, IsPartial, word_front, partial_onto, FailsFor, SameFront, word_ahead};
ghost use Rattle.resp2.specs.Answers.{IfOkSome, OnOkNone, OnOkTrue, OnOkFalse};

use crate::bulk::{is_whole, make_room, take_front};
use byte_string::ByteString;
use bytes::BytesMut;
use resp_header::{Bounds, Fault, read_header};
use resp_values::{MOST_WORD_BYTES, MOST_WORDS, Words};
use std::alloc::Global;
use std::marker::Model;

/// For so many words room is made as soon as their count is known, and for more as they come: so a count alone takes
/// little memory.
const MOST_ROOM: usize = 16;

/// The words of a request that came whole. There may be none, and they may take too many bytes.
#[derive(Drop)]
pub struct Frame {
    words: Vec<ByteString>,
}

impl Model for Frame {
    ghost use Rattle.std.specs.Prelude.{List, ℕ};
    ghost use Rattle.resp_values.specs.Request.{WordsKeepLimits};

    ghost Value = { List (List ℕ) };

    ghost view = { λ frame. frame.words.items };

    ghost invariant = { λ frame. WordsKeepLimits frame.words.items };
}

impl Frame {
    /// The request, or None where there is no word.
    pub fn into_words(self) -> Option<Words>
        requires { KeepsLimits self }
        ensures some { IfSome result (λ words. (words ≡ self) × IsRequest self) }
        ensures none { IfNone result (self ≡ []) }
    {
        if self.words.is_empty() {
            return None;
        }
        let Frame { words } = self;
        Some(Words::of_items(words))
    }
}

/// A request of which the header was read.
#[derive(Drop)]
pub struct Partial {
    /// The words that came whole.
    words: Vec<ByteString>,
    /// How many words are to come after those.
    left: usize,
    /// The length of the next word in bytes, once its header was read.
    len: Option<usize>,
}

impl Partial {
    /// The request whose header is in front, or None where the header isn't whole.
    pub fn begin(input: &mut BytesMut) -> Result<Option<Partial>, Fault>
        ensures partial { IfOkSome result (λ partial. IsPartial partial) }
        ensures begun { IfOkSome result (λ partial. partial_onto partial input.new.items ≡ input.old.items) }
        ensures unfinished { OnOkNone result (reading_words input.old.items ≡ Wants) }
        ensures same { OnOkNone result (input.new.items ≡ input.old.items) }
        ensures err { FailsFor result (reading_words input.old.items) }
        ensures unchanged { OnErr result (input.new.items ≡ input.old.items) }
        ensures shrinks { length input.new.items ≤ length input.old.items }
    {
        let bounds = Bounds {
            least: 0,
            most: MOST_WORDS,
            above: Fault::TooLong,
        };
        let Some(header) = read_header(input.as_slice(), b'*', bounds)? else {
            return Ok(None);
        };
        let words = Vec::with_capacity(*input.allocator(), header.number.min(MOST_ROOM))?;
        input.advance(header.len);
        Ok(Some(Partial {
            words,
            left: header.number,
            len: None,
        }))
    }

    /// Takes the words that came whole, and says whether those are all.
    ///
    /// An error leaves what can be gone on with: nothing is lost.
    pub fn take_words(&mut self, input: &mut BytesMut) -> Result<bool, Fault>
        requires { IsPartial self.old }
        ensures takes { TakesAll result (reading_words (partial_onto self.old input.old.items)) self.new.words.items input.new.items }
        ensures all { OnOkTrue result (self.new.left ≡ 0) }
        ensures partial { IsPartial self.new }
        ensures kept { partial_onto self.new input.new.items ≡ partial_onto self.old input.old.items }
        ensures shrinks { length input.new.items ≤ length input.old.items }
    {
        'words: while self.left > 0 {
            // A word that was taken is no longer in the input, so the room for it comes first: a refusal here loses no word.
            self.words.reserve(1)?;
            if !take_word(input, &mut self.len, &mut self.words)? {
                return Ok(false);
            }
            self.left -= 1;
        }
        Ok(true)
    }

    /// The words, where none is to come.
    pub fn into_frame(self) -> Frame
        requires partial { IsPartial self }
        requires all { self.left ≡ 0 }
        ensures { result ≡ self.words.items }
    {
        Frame { words: self.words }
    }
}

/// Takes the word in front, with its header and its end, once it is whole.
///
/// A header is consumed as soon as it is whole, and its length is remembered: so a long word that
/// comes in many pieces isn't looked at again with each of them.
fn take_word(
    input: &mut BytesMut,
    len: &mut Option<usize>,
    words: &mut Vec<ByteString>,
) -> Result<bool, Fault>
    requires len { HasLen len.old }
    requires room { vec_len words.old < vec_capacity words.old }
    ensures takes { TakesWord result (word_ahead len.old input.old.items) words.old.items words.new.items input.new.items }
    ensures next { OnOkTrue result (len.new ≡ None) }
    ensures unfinished { OnOkFalse result (SameFront len.old input.old len.new input.new) }
    ensures err { OnErr result (SameFront len.old input.old len.new input.new) }
    ensures len { HasLen len.new }
    ensures shrinks { length input.new.items ≤ length input.old.items }
{
    let Some(known) = take_len(input, len)? else {
        return Ok(false);
    };
    take_body(input, len, known, words)
}

/// The word's length, which is read and remembered where it wasn't yet.
fn take_len(input: &mut BytesMut, len: &mut Option<usize>) -> Result<Option<usize>, Fault>
    requires { HasLen len.old }
    ensures known { IfOkSome result (λ number. len.new ≡ Some number) }
    ensures unfinished { OnOkNone result (word_ahead len.old input.old.items ≡ Wants) }
    ensures err { IfErr result (λ fault. word_ahead len.old input.old.items ≡ Bad fault) }
    ensures kept { SameFront len.old input.old len.new input.new }
    ensures len { HasLen len.new }
    ensures shrinks { length input.new.items ≤ length input.old.items }
{
    match *len {
        Some(known) => Ok(Some(known)),
        None => read_len(input, len),
    }
}

/// Reads the header of a word.
fn read_len(input: &mut BytesMut, len: &mut Option<usize>) -> Result<Option<usize>, Fault>
    requires { len.old ≡ None }
    ensures known { IfOkSome result (λ number. len.new ≡ Some number) }
    ensures unfinished { OnOkNone result (word_at MOST_WORD_BYTES input.old.items ≡ Wants) }
    ensures err { IfErr result (λ fault. word_at MOST_WORD_BYTES input.old.items ≡ Bad fault) }
    ensures kept { word_front len.new input.new.items ≡ input.old.items }
    ensures len { HasLen len.new }
    ensures shrinks { length input.new.items ≤ length input.old.items }
{
    let bounds = Bounds {
        least: 0,
        most: MOST_WORD_BYTES,
        above: Fault::TooLong,
    };
    let Some(header) = read_header(input.as_slice(), b'$', bounds)? else {
        return Ok(None);
    };
    input.advance(header.len);
    *len = Some(header.number);
    Ok(*len)
}

/// Takes a word of the known length, and the end of its line.
fn take_body(
    input: &mut BytesMut,
    len: &mut Option<usize>,
    known: usize,
    words: &mut Vec<ByteString>,
) -> Result<bool, Fault>
    requires len { len.old ≡ Some known }
    requires limit { HasLen len.old }
    requires room { vec_len words.old < vec_capacity words.old }
    ensures takes { TakesWord result (body_at known input.old.items) words.old.items words.new.items input.new.items }
    ensures next { OnOkTrue result (len.new ≡ None) }
    ensures unfinished { OnOkFalse result (SameFront len.old input.old len.new input.new) }
    ensures err { OnErr result (SameFront len.old input.old len.new input.new) }
    ensures len { HasLen len.new }
    ensures shrinks { length input.new.items ≤ length input.old.items }
{
    if !is_whole(input.as_slice(), known)? {
        make_room(input, known);
        return Ok(false);
    }
    let word = take_front(input, known)?;
    words.push_reserved(word);
    input.advance(2);
    *len = None;
    Ok(true)
}
