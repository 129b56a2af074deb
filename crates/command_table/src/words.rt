//! Words as commands hold them: they stay with the request, and nothing of them is copied.
ghost use Rattle.std.specs.Prelude.{◌≡◌, ◌≢◌, ◌<◌, ◌∷◌, ◌↔◌, [], length, IfNone, IfSome, IsSome, Some};
ghost use Rattle.command_table.specs.Pairs.{IsNoPair, pairs_in, pairs_of};

use byte_string::ByteString;
use std::marker::Model;
use std::ops::Deref;

/// A word of a request, as a key or a value.
#[derive(Debug, Drop)]
pub struct Word<'w> {
    word: &'w ByteString,
}

impl<'w> Model for Word<'w> {
    ghost use Rattle.std.specs.Prelude.{List, ℕ};

    ghost Value = { List ℕ };

    ghost view = { λ word. word.word.now };
}

impl<'w> Word<'w> {
    /// The word, in its request.
    pub fn new(word: &'w ByteString) -> Word<'w>
        ensures { result ≡ word.now }
    {
        Word { word }
    }

    /// The bytes, for as long as the request is there.
    pub fn bytes(&self) -> &'w ByteString
        ensures { result.now ≡ self.now }
    {
        self.word
    }
}

impl<'w> Deref for Word<'w> {
    type Target = ByteString;

    ghost deref_gives = { λ word bytes. bytes ≡ word };

    fn deref(&self) -> &ByteString {
        self.word
    }
}

/// One or more words, in the order of the request: keys, or fields of a hash.
#[derive(Debug, Drop)]
pub struct WordList<'w> {
    words: &'w [ByteString],
}

impl<'w> Model for WordList<'w> {
    ghost use Rattle.std.specs.Prelude.{◌≢◌, List, ℕ, []};

    ghost Value = { List (List ℕ) };

    ghost view = { λ list. list.words.now };

    ghost invariant = { λ list. list.words.now ≢ [] };
}

impl<'w> WordList<'w> {
    /// A list of these words, or None where there are none.
    pub fn new(words: &'w [ByteString]) -> Option<WordList<'w>>
        ensures words { IfSome result (λ list. list ≡ words.now) }
        ensures some { IsSome result ↔ words.now ≢ [] }
    {
        match words {
            [] => None,
            _ => Some(WordList { words }),
        }
    }

    /// The words in order.
    pub fn as_slice(&self) -> &'w [ByteString]
        ensures words { result.now ≡ self.now }
        ensures some { self.now ≢ [] }
    {
        self.words
    }
}

/// One or more pairs of words, in the order of the request: a key and its string, or a field and its value.
#[derive(Debug, Drop)]
pub struct PairList<'w> {
    // The words of the first pair, then those of the next.
    words: &'w [ByteString],
}

impl<'w> Model for PairList<'w> {
    ghost use Rattle.std.specs.Prelude.{◌≡◌, ◌≢◌, List, ℕ, [], Some};
    ghost use Rattle.command_table.specs.Pairs.{pairs_in, pairs_of};

    ghost Value = { List (List ℕ × List ℕ) };

    ghost view = { λ list. pairs_in list.words.now };

    ghost invariant = { λ list. (pairs_in list.words.now ≢ []) × (pairs_of list.words.now ≡ Some (pairs_in list.words.now)) };
}

impl<'w> PairList<'w> {
    /// The words two by two, or None where there are none or one is left over.
    #[tactic(auto, using(crate::proofs::PairLemmas::pairs_of_even, crate::proofs::PairLemmas::no_pair, crate::proofs::PairLemmas::some_pair))]
    pub fn new(words: &'w [ByteString]) -> Option<PairList<'w>>
        ensures pairs { IfSome result (λ list. pairs_of words.now ≡ Some list) }
        ensures some { IfSome result (λ list. list ≢ []) }
        ensures none { IfNone result (IsNoPair (pairs_of words.now)) }
    {
        if words.is_empty() {
            return None;
        }
        if words.len() % 2 == 1 {
            return None;
        }
        Some(PairList { words })
    }

    /// The words of all pairs, in order. [`split_pair`] takes them apart.
    pub fn words(&self) -> &'w [ByteString]
        ensures pairs { pairs_in result.now ≡ self.now }
        ensures whole { pairs_of result.now ≡ Some self.now }
        ensures some { self.now ≢ [] }
    {
        self.words
    }
}

/// The two words of the first pair and the words behind them, or None where no pair is left.
pub fn split_pair<'w>(
    words: &'w [ByteString],
) -> Option<(&'w ByteString, &'w ByteString, &'w [ByteString])>
    ensures pair { IfSome result (λ split. pairs_in words.now ≡ (split.0.now, split.1.now) ∷ pairs_in split.2.now) }
    ensures shorter { IfSome result (λ split. length split.2.now < length words.now) }
    ensures none { IfNone result (pairs_in words.now ≡ []) }
{
    match words {
        [first, second, others @ ..] => Some((first, second, others)),
        _ => None,
    }
}
