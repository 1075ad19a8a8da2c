//! Words that stand next.
ghost use Rattle.std.specs.Prelude.{◌≡◌, ◌≤◌, length, map};
ghost use Rattle.driver_sections.specs.Fronts.{tokens_from, tokens_at};
ghost use Rattle.driver_sections.specs.Marks.{are_next};

use crate::fronts::next_token;
use grammar_reader::Language;
use lexer::{Span, TokenState};

/// Whether the tokens from an offset on are these words.
fn words_follow<'a, L: Language, S: TokenState<'a>>(
    mut before: S,
    text: &'a [u8],
    from: usize,
    words: &[&[u8]],
) -> bool
    requires { from ≤ length text.now }
    ensures { result ≡ are_next L.is_same (map (λ word. word.now) words.now) (tokens_from S.lexis (S.flag before) text.now from) }
{
    let mut next = from;
    for word in words {
        let Some(token) = next_token(before, text, next) else {
            return false;
        };
        let bytes = &text[token.at..token.end];
        if !L::is_same(bytes, word) {
            return false;
        }
        before = before.after(bytes);
        next = token.end;
    }
    true
}

/// Whether a token at this place and those behind it are these words.
#[inline(always)]
pub(crate) fn are_next<'a, L: Language, S: TokenState<'a>>(
    before: S,
    text: &'a [u8],
    token: Span,
    words: &[&[u8]],
) -> bool
    requires order { token.at ≤ token.end }
    requires within { token.end ≤ length text.now }
    ensures { result ≡ are_next L.is_same (map (λ word. word.now) words.now) (tokens_at S.lexis (S.flag before) text.now token) }
{
    let Some((first, more)) = words.split_first() else {
        return true;
    };
    let bytes = &text[token.at..token.end];
    L::is_same(bytes, first) && words_follow::<L, S>(before.after(bytes), text, token.end, more)
}
