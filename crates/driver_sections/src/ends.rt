//! Where parts of a text end.
ghost use Rattle.std.specs.Prelude.{◌≡◌, ◌<◌, ◌≤◌, [], ◌∷◌, length, false, IfOk, IfSome, None};
ghost use Rattle.lexer.specs.Tokens.{scan_of};
ghost use Rattle.driver_sections.specs.Fronts.{tokens_from};
ghost use Rattle.driver_sections.specs.Marks.{ends};
ghost use Rattle.driver_sections.specs.Told.{ending_of};

use crate::fronts::next_token;
use crate::marks::Ending;
use crate::words::are_next;
use grammar_reader::Language;
use lexer::TokenState;
use std::alloc::{AllocError, Global};

/// A place of a text outside a token, and what the tokens before it say of those behind.
#[derive(Clone, Copy)]
pub(crate) struct Place<S> {
    pub before: S,
    pub next: usize,
}

/// The place behind the part of a text that ends first behind a place.
#[tactic(auto, using(crate::proofs::Parts::ends_here, crate::proofs::Parts::ends_later, crate::proofs::Parts::ends_not, crate::proofs::Parts::ends_none))]
pub(crate) fn behind_part<'a, L: Language, S: TokenState<'a>>(
    from: Place<S>,
    text: &'a [u8],
    ending: &Ending,
) -> Option<Place<S>>
    requires { from.next ≤ length text.now }
    ensures more { IfSome result
        (λ place. ends L.is_same (ending_of ending.now) false (tokens_from S.lexis (S.flag from.before) text.now from.next)
        ≡ place.next ∷ ends L.is_same (ending_of ending.now) false (tokens_from S.lexis (S.flag place.before) text.now place.next)) }
    ensures onwards { IfSome result (λ place. from.next < place.next) }
    ensures within { IfSome result (λ place. place.next ≤ length text.now) }
    ensures none { result ≡ None →
        ends L.is_same (ending_of ending.now) false (tokens_from S.lexis (S.flag from.before) text.now from.next) ≡ [] }
{
    let mut before = from.before;
    let mut next = from.next;
    let mut ended = false;
    while let Some(token) = next_token(before, text, next) {
        let bytes = &text[token.at..token.end];
        ended = ended || are_next::<L, S>(before, text, token, ending.words);
        before = before.after(bytes);
        next = token.end;
        if ended && L::is_same(bytes, ending.closing) {
            return Some(Place { before, next });
        }
    }
    None
}

/// The offsets behind the parts of a text that end so, in order. It fails only for want of memory.
pub fn all_ends<'a, L: Language, S: TokenState<'a>>(
    alloc: Global,
    text: &'a [u8],
    ending: &Ending,
) -> Result<Vec<usize>, AllocError>
    ensures { IfOk result (λ found. found.items ≡ ends L.is_same (ending_of ending.now) false (scan_of S.lexis text.now).0) }
{
    let mut found = Vec::new(alloc);
    let mut place = Place {
        before: S::start(),
        next: 0,
    };
    while let Some(behind) = behind_part::<L, S>(place, text, ending) {
        found.push(behind.next)?;
        place = behind;
    }
    Ok(found)
}
