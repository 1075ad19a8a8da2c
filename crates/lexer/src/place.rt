//! Where the tokens of a text stand that are left.

ghost use Rattle.std.specs.Prelude.{◌≡◌, length};
ghost use Rattle.lexer.specs.Places.{place_from};
ghost use Rattle.lexer.specs.Spans.{tokens_of};

use crate::span::KeptSpan;

/// The offset of the token with which so many tokens are left; the length of the text where none is left.
pub fn place_of(text: &[u8], tokens: &[KeptSpan], left: usize) -> usize
    ensures { result ≡ place_from (length text.now) (tokens_of text.now tokens.now) left }
{
    let mut rest = tokens;
    for _turn in 0..tokens.len() {
        if let [first, more @ ..] = rest {
            if rest.len() == left {
                return first.span().at;
            }
            rest = more;
        }
    }
    text.len()
}
