//! A stimulus cut into lines, and a line cut into words.
ghost use Rattle.std.specs.Prelude.{◌≡◌, ◌<◌, [], ◌∷◌, length, not, position, MatchOption, IfSome};
ghost use Rattle.stimulus.specs.Text.{is_blank as is_blank_of, is_line_feed as is_line_feed_of};
ghost use Rattle.stimulus.specs.Text.{without_return as without_return_of, lines_of, words_of};

/// Whether a byte is a space or a tab.
fn is_blank(byte: u8) -> bool
    ensures { result ≡ is_blank_of byte }
{
    byte == b' ' || byte == b'\t'
}

/// Whether a byte ends a line.
fn is_line_feed(byte: u8) -> bool
    ensures { result ≡ is_line_feed_of byte }
{
    byte == b'\n'
}

/// A line without the carriage return at its end, where one stands there.
fn without_return(line: &[u8]) -> &[u8]
    ensures { result.now ≡ without_return_of line.now }
{
    match line {
        [front @ .., b'\r'] => front,
        _ => line,
    }
}

/// Where the first line feed of a text stands.
fn line_end(text: &[u8]) -> Option<usize>
    ensures { result ≡ position is_line_feed_of text.now }
{
    text.iter().position(|byte| is_line_feed(*byte))
}

/// Where the first word of a text begins.
fn word_start(text: &[u8]) -> Option<usize>
    ensures { result ≡ position (λ byte. not (is_blank_of byte)) text.now }
{
    text.iter().position(|byte| !is_blank(*byte))
}

/// Where the first blank of a text stands.
fn word_end(text: &[u8]) -> Option<usize>
    ensures { result ≡ position is_blank_of text.now }
{
    text.iter().position(|byte| is_blank(*byte))
}

/// The first line of a text, and what stands behind its line feed: nothing where the text has none.
pub(crate) fn first_line(text: &[u8]) -> (&[u8], Option<&[u8]>)
    ensures line { MatchOption result.1 (lines_of text.now ≡ result.0.now ∷ [])
        (λ rest. lines_of text.now ≡ result.0.now ∷ lines_of rest.now) }
    ensures shorter { IfSome result.1 (λ rest. length rest.now < length text.now) }
{
    match line_end(text) {
        Some(at) => (without_return(&text[..at]), Some(&text[at + 1..])),
        None => (text, None),
    }
}

/// The first word of a text, and what stands behind it: nothing where the text has no word.
pub(crate) fn first_word(text: &[u8]) -> Option<(&[u8], &[u8])>
    ensures { MatchOption result (words_of text.now ≡ []) (λ found. words_of text.now ≡ found.0.now ∷ words_of found.1.now) }
{
    let start = word_start(text)?;
    let word = &text[start..];
    match word_end(word) {
        Some(end) => Some(word.split_at(end)),
        None => Some((word, b"")),
    }
}
