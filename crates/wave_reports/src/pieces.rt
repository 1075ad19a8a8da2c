//! A text that is cut at bytes of a kind.
ghost use Rattle.std.specs.Prelude.{◌≡◌, ◌<◌, ◌==◌, [], ◌∷◌, length, position, IfSome, MatchOption};
ghost use Rattle.std.specs.Option.{option_copied};
ghost use Rattle.wave_reports.specs.Pieces.{pieces, pieces_left, cut_last as cut_last_of};

/// Where the first such byte of a text stands.
fn first_place(text: &[u8], at: u8) -> Option<usize>
    ensures { result ≡ position (λ b. b == at) text.now }
{
    text.iter().position(|byte| *byte == at)
}

/// The first piece of a text, and what stands behind the byte that ends it: nothing where the text has no such byte.
pub(crate) fn cut(text: &[u8], at: u8) -> (&[u8], Option<&[u8]>)
    ensures pieces { pieces at text.now ≡ result.0.now ∷ pieces_left at (option_copied result.1) }
    ensures shorter { IfSome result.1 (λ rest. length rest.now < length text.now) }
{
    match first_place(text, at) {
        Some(end) => (&text[..end], Some(&text[end + 1..])),
        None => (text, None),
    }
}

/// The first word of what is left of a line, and what is left behind it.
pub(crate) fn first_word(rest: Option<&[u8]>) -> Option<(&[u8], Option<&[u8]>)>
    ensures { MatchOption result (pieces_left 32 (option_copied rest.entry) ≡ [])
        (λ found. pieces_left 32 (option_copied rest.entry) ≡ found.0.now ∷ pieces_left 32 (option_copied found.1)) }
{
    match rest {
        Some(text) => Some(cut(text, b' ')),
        None => None,
    }
}

/// What stands ahead of the last such byte of a text, where it has one, and what stands behind it.
pub(crate) fn cut_last(text: &[u8], at: u8) -> (Option<&[u8]>, &[u8])
    ensures before { option_copied result.0 ≡ (cut_last_of at text.now).0 }
    ensures after { result.1.now ≡ (cut_last_of at text.now).1 }
{
    match text.iter().rposition(|byte| *byte == at) {
        Some(place) => (Some(&text[..place]), &text[place + 1..]),
        None => (None, text),
    }
}
