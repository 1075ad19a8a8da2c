//! The next line of a text.
ghost use Rattle.std.specs.Prelude.{◌≡◌, ◌<◌, [], ◌∷◌, length, MatchOption, IfSome};
ghost use Rattle.stimulus.specs.Text.{lines_of};
ghost use Rattle.stimulus.specs.Written.{written_in as written_in_of, shown};
ghost use Rattle.stimulus.specs.NextLine.{first_line_of};

use crate::lines::first_line;
use crate::written::{Written, written_in};

/// What is written in the first line of a text, and what stands behind its line feed: nothing where the text has none.
pub(crate) fn next_line(text: &[u8]) -> (Written<'_>, Option<&[u8]>)
    ensures line { MatchOption result.1 (lines_of text.now ≡ first_line_of text.now ∷ [])
        (λ rest. lines_of text.now ≡ first_line_of text.now ∷ lines_of rest.now) }
    ensures shorter { IfSome result.1 (λ rest. length rest.now < length text.now) }
    ensures written { shown result.0 ≡ written_in_of (first_line_of text.now) }
{
    let (line, more) = first_line(text);
    (written_in(line), more)
}
