//! The names in a function text.
ghost use Rattle.std.specs.Prelude.{◌≡◌, ◌≤◌, length, IfOk};
ghost use Rattle.bool_functions.specs.Token.{is_name, bytes_at, words_of, LieIn};
ghost use Rattle.bool_functions.specs.FunctionText.{first_unknown, first_appearances};

use crate::name_list::Names;
use crate::tokens::{Span, is_word_byte};
use std::alloc::{AllocError, Global};

/// The names among these tokens, in the order of their first appearances.
pub(crate) fn names_in(alloc: Global, text: &[u8], tokens: &[Span]) -> Result<Names, AllocError>
    requires { LieIn text.now tokens.now }
    ensures { IfOk result (λ names. names ≡ first_appearances (words_of text.now tokens.now)) }
{
    let mut names = Names::new(alloc);
    for token in tokens {
        let bytes = bytes_at(text, *token);
        if is_name(bytes) {
            names.add(bytes)?;
        }
    }
    Ok(names)
}

/// The offset of the first of these tokens that is a name and not in the list.
pub(crate) fn first_unknown(text: &[u8], tokens: &[Span], names: &Names) -> Option<usize>
    requires { LieIn text.now tokens.now }
    ensures { result ≡ first_unknown names.now text.now tokens.now }
{
    for token in tokens {
        let bytes = bytes_at(text, *token);
        if is_name(bytes) && names.number(bytes).is_none() {
            return Some(token.start);
        }
    }
    None
}

/// The bytes of a token.
pub(crate) fn bytes_at(text: &[u8], token: Span) -> &[u8]
    requires order { token.start ≤ token.end }
    requires within { token.end ≤ length text.now }
    ensures { result.now ≡ bytes_at text.now token }
{
    &text[token.start..token.end]
}

/// Whether a token is a name: it begins with a letter or `_`.
fn is_name(bytes: &[u8]) -> bool
    ensures { result ≡ is_name bytes.now }
{
    match bytes {
        [] => false,
        [first, ..] => is_word_byte(*first) && !first.is_ascii_digit(),
    }
}
