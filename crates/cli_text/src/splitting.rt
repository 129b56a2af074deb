//! The words of a line, as redis-cli parts them.
ghost use Rattle.std.specs.Prelude.{◌≡◌, ◌+◌, ◌≤◌, ◌++◌, ◌∷◌, [], length, sum_by, vec_len, IfOk, OnOk};
ghost use Rattle.resp_values.specs.declared.words.TheConstants.{MOST_WORDS};

use crate::fault::{LineFault, NoCommand};
use crate::quoting::{Piece, Quote, piece_in};
use byte_string::ByteString;
use resp_values::MOST_WORDS;
use std::alloc::{AllocError, Global};

/// The words of the line, of which there is none where it has blanks alone.
///
/// A blank is a space, a tab or a carriage return. A quote begins within a word or at its front, and the word ends with the quote.
pub(crate) fn words_in(alloc: Global, line: &[u8]) -> Result<Vec<ByteString>, LineFault>
    ensures few { IfOk result (λ words. vec_len words ≤ MOST_WORDS) }
    ensures short { IfOk result (λ words. sum_by length words.items ≤ length line.now) }
{
    let mut words = Vec::new(alloc);
    let mut word = Vec::new(alloc);
    let mut rest = behind_blanks(line);
    // A request has so many words at most.
    'words: for _ in 0..MOST_WORDS {
        if rest.is_empty() {
            return Ok(words);
        }
        word.clear();
        rest = behind_blanks(take_word(rest, &mut word)?);
        add(&mut words, word.as_slice())?;
    }
    if !rest.is_empty() {
        return Err(LineFault::from(NoCommand::TooLong));
    }
    Ok(words)
}

fn add(words: &mut Vec<ByteString>, word: &[u8]) -> Result<(), AllocError>
    ensures added { OnOk result (words.new.items ≡ words.old.items ++ word.now ∷ []) }
    ensures len { OnOk result (vec_len words.new ≡ vec_len words.old + 1) }
    ensures sum { OnOk result (sum_by length words.new.items ≡ sum_by length words.old.items + length word.now) }
{
    let word = ByteString::copy_from_slice(*words.allocator(), word)?;
    words.push(word).map_err(AllocError::from)
}

fn behind_blanks(text: &[u8]) -> &[u8]
    ensures short { length result.now ≤ length text.now }
{
    let mut rest = text;
    'blanks: while let [b' ' | b'\t' | b'\r', behind @ ..] = rest {
        rest = behind;
    }
    rest
}

// Puts the word at the front of the text behind what is there, and gives the text behind the word.
fn take_word<'a>(text: &'a [u8], word: &mut Vec<u8>) -> Result<&'a [u8], LineFault>
    ensures short { IfOk result (λ behind. vec_len word.new + length behind.now ≤ vec_len word.old + length text.now) }
{
    let mut rest = text;
    'bytes: while let [byte, behind @ ..] = rest {
        match *byte {
            b' ' | b'\t' | b'\r' => return Ok(rest),
            b'"' => return take_quoted(Quote::Double, behind, word),
            b'\'' => return take_quoted(Quote::Single, behind, word),
            byte => word.extend_from_slice(&[byte])?,
        }
        rest = behind;
    }
    Ok(rest)
}

// The same from behind the quote on that begins.
fn take_quoted<'a>(quote: Quote, text: &'a [u8], word: &mut Vec<u8>) -> Result<&'a [u8], LineFault>
    ensures short { IfOk result (λ behind. vec_len word.new + length behind.now ≤ vec_len word.old + length text.now) }
{
    let mut rest = text;
    'pieces: while let Some((piece, behind)) = piece_in(quote, rest) {
        match piece {
            Piece::Byte(byte) => word.extend_from_slice(&[byte])?,
            Piece::End => return end_of_word(behind),
        }
        rest = behind;
    }
    Err(LineFault::from(NoCommand::OpenQuote))
}

// The text behind a closing quote, if the word may end there.
fn end_of_word(text: &[u8]) -> Result<&[u8], LineFault>
    ensures { IfOk result (λ behind. behind.now ≡ text.now) }
{
    match text {
        [] | [b' ' | b'\t' | b'\r', ..] => Ok(text),
        [_, ..] => Err(LineFault::from(NoCommand::BehindQuote)),
    }
}
