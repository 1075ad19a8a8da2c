//! What a token stands for in the grammar of function texts.
ghost use Rattle.std.specs.Prelude.{◌≡◌};
ghost use Rattle.bool_functions.specs.Token.{digit_of, mark_of, symbol_of};

use crate::name_list::Names;
use crate::tokens::is_word_byte;

/// A token by its meaning. `Stray` is a byte or a run with which no function text goes on.
#[derive(Clone, Copy)]
pub enum Symbol {
    Name(usize),
    Zero,
    One,
    /// Inversion before its operand.
    Bang,
    /// Inversion after its operand.
    Quote,
    Caret,
    Times,
    Plus,
    Open,
    Close,
    Stray,
}

/// The meaning of a token's bytes. A name that is not in the list has the list's length for its number.
pub(crate) fn symbol_of(bytes: &[u8], names: &Names) -> Symbol
    ensures { result ≡ symbol_of names.now bytes.now }
{
    match bytes {
        [] => Symbol::Stray,
        [first, rest @ ..] => {
            if first.is_ascii_digit() {
                digit_of(*first, rest)
            } else if is_word_byte(*first) {
                Symbol::Name(names.number(bytes).unwrap_or(names.len()))
            } else {
                mark_of(*first)
            }
        }
    }
}

/// The symbol of a run of digits: a constant, or none that a text may have.
fn digit_of(first: u8, rest: &[u8]) -> Symbol
    ensures { result ≡ digit_of first rest.now }
{
    match (first, rest) {
        (b'0', []) => Symbol::Zero,
        (b'1', []) => Symbol::One,
        _ => Symbol::Stray,
    }
}

/// The symbol of a byte that stands alone.
fn mark_of(byte: u8) -> Symbol
    ensures { result ≡ mark_of byte }
{
    match byte {
        b'!' => Symbol::Bang,
        b'\'' => Symbol::Quote,
        b'^' => Symbol::Caret,
        b'*' | b'&' => Symbol::Times,
        b'+' | b'|' => Symbol::Plus,
        b'(' => Symbol::Open,
        b')' => Symbol::Close,
        _ => Symbol::Stray,
    }
}
