//! The next token of a text.
ghost use Rattle.std.specs.Prelude.{◌≡◌, ◌+◌, ◌<◌, ◌≤◌, length, drop, IfSome, None};
ghost use Rattle.driver_sections.specs.Fronts.{behind_gap, IsNext, HasNoNext};

use lexer::{Lexicon, Span, TokenState};

/// The offset behind the separators that stand in a text from an offset on.
#[inline(always)]
fn behind_separators<L: Lexicon>(text: &[u8], from: usize) -> usize
    requires { from ≤ length text.now }
    ensures value { result ≡ behind_gap L.lexis text.now from }
    ensures within { result ≤ length text.now }
    ensures stops { result < length text.now → L.lexis.separator_length (drop result text.now) ≡ 0 }
{
    let mut at = from;
    while at < text.len() {
        let (_, rest) = text.split_at(at);
        let length = L::separator_length(rest);
        if length == 0 {
            return at;
        }
        at += length;
    }
    at
}

/// The place of the next token of a text from an offset on.
#[inline(always)]
pub(crate) fn next_token<'a, S: TokenState<'a>>(
    before: S,
    text: &'a [u8],
    from: usize,
) -> Option<Span>
    requires { from ≤ length text.now }
    ensures next { IfSome result (λ token. IsNext S.lexis (S.flag before) text.now from token) }
    ensures none { result ≡ None → HasNoNext S.lexis (S.flag before) text.now from }
{
    let at = behind_separators::<S>(text, from);
    let (_, rest) = text.split_at(at);
    let length = before.token_length(rest);
    if length == 0 {
        return None;
    }
    Some(Span {
        at,
        end: at + length,
    })
}
