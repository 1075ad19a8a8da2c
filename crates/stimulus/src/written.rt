//! What is written in a line.
ghost use Rattle.std.specs.Prelude.{◌≡◌};
ghost use Rattle.stimulus.specs.Text.{words_of};
ghost use Rattle.stimulus.specs.Written.{written_in as written_in_of, written_words as written_words_of};
ghost use Rattle.stimulus.specs.Written.{written_pair as written_pair_of, shown};

use crate::lines::first_word;

/// What is written in a line, before anything is said of its names and numbers.
#[derive(Clone, Copy)]
pub(crate) enum Written<'a> {
    /// Nothing: the line has no words or is a comment.
    Nothing,
    /// The word `cell` and a name.
    Cell(&'a [u8]),
    /// Three words.
    Change {
        time: &'a [u8],
        pin: &'a [u8],
        value: &'a [u8],
    },
    /// Anything else.
    Other,
}

/// What is written in a line. A line that begins with `#` is a comment; a blank before it makes it a word.
pub(crate) fn written_in(line: &[u8]) -> Written<'_>
    ensures { shown result ≡ written_in_of line.now }
{
    match line {
        [b'#', ..] => Written::Nothing,
        _ => written_words(line),
    }
}

/// What the words of a line stand for.
fn written_words(line: &[u8]) -> Written<'_>
    ensures { shown result ≡ written_words_of (words_of line.now) }
{
    let Some((first, rest)) = first_word(line) else {
        return Written::Nothing;
    };
    let Some((second, rest)) = first_word(rest) else {
        return Written::Other;
    };
    let Some((third, rest)) = first_word(rest) else {
        return written_pair(first, second);
    };
    match first_word(rest) {
        None => Written::Change {
            time: first,
            pin: second,
            value: third,
        },
        Some(_) => Written::Other,
    }
}

/// What a line of two words stands for.
fn written_pair<'a>(first: &'a [u8], name: &'a [u8]) -> Written<'a>
    ensures { shown result ≡ written_pair_of first.now name.now }
{
    if first == b"cell".as_slice() {
        Written::Cell(name)
    } else {
        Written::Other
    }
}
