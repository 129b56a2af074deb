//! Lines and words, as they stand in a text.
ghost use Rattle.std.specs.Prelude.{◌≡◌, ◌<◌, ◌∷◌, ◌==◌, [], length, position, IfNone, IfSome};
ghost use Rattle.std.specs.List.{slice_split};
ghost use Rattle.simulator.specs.Lines.{lines, words};
ghost use Rattle.simulator.specs.Splitting.{parts_behind, words_behind};

/// The first line, without its end, and the text behind it, or None where no line is left.
#[tactic(auto, using(crate::proofs::Splitting::line_then_lines, crate::proofs::Splitting::last_line))]
pub(crate) fn split_line(text: &[u8]) -> Option<(&[u8], &[u8])>
    ensures lines { IfSome result (λ split. lines text.now ≡ split.0.now ∷ lines split.1.now) }
    ensures shorter { IfSome result (λ split. length split.1.now < length text.now) }
    ensures none { IfNone result (lines text.now ≡ []) }
{
    if text.is_empty() {
        return None;
    }
    match split_at(text, b'\n') {
        (line, Some(behind)) => Some((line, behind)),
        (line, None) => Some((line, &[])),
    }
}

/// The first word, and what stands behind its blank, if a blank ends it.
pub(crate) fn split_word(line: &[u8]) -> (&[u8], Option<&[u8]>)
    ensures words { words line.now ≡ result.0.now ∷ words_behind result.1 }
    ensures shorter { IfSome result.1 (λ behind. length behind.now < length line.now) }
{
    split_at(line, b' ')
}

// The bytes before the first such byte, and those behind it, if it is there.
fn split_at(text: &[u8], end: u8) -> (&[u8], Option<&[u8]>)
    ensures parts { slice_split (λ byte. byte == end) text.now
        ≡ result.0.now ∷ parts_behind end result.1 }
    ensures shorter { IfSome result.1 (λ behind. length behind.now < length text.now) }
    ensures whole { IfNone result.1 (result.0.now ≡ text.now) }
{
    match place_of(text, end) {
        Some(place) => (&text[..place], Some(&text[place + 1..])),
        None => (text, None),
    }
}

// The place of the first such byte.
fn place_of(text: &[u8], byte: u8) -> Option<usize>
    ensures place { result ≡ position (λ other. other == byte) text.now }
    ensures within { IfSome result (λ place. place < length text.now) }
{
    text.iter().position(|other| *other == byte)
}
