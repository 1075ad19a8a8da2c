//! The symbols of tables. (IEEE 1076.4-2000, the VITAL table symbols.)

ghost use Rattle.std.specs.Prelude.{◌≡◌, slice_get};
ghost use Rattle.std.specs.List.{list_any};
ghost use Rattle.std.specs.Option.{option_and_then};
ghost use Rattle.vhdl_grammar.specs.VhdlTables as spec;

use trit_cubes::Trit;
use vital_tables::{Trits, VNext, VSymbol};

/// The level that a symbol stands for.
pub fn level_of(token: &[u8]) -> Option<Trits>
    ensures { result ≡ spec.level_of token.now }
{
    match token {
        b"'0'" => Some(Trits::Zero),
        b"'1'" => Some(Trits::One),
        b"'X'" => Some(Trits::Unknown),
        b"'-'" => Some(Trits::Any),
        b"'B'" => Some(Trits::Binary),
        _ => None,
    }
}

/// What a symbol stands for in a table of a state, where it is no level.
fn change_of(token: &[u8]) -> Option<VSymbol>
    ensures { result ≡ spec.change_of token.now }
{
    match token {
        b"'S'" => Some(VSymbol::Steady),
        b"'/'" => Some(VSymbol::Rise),
        b"'\\'" => Some(VSymbol::Fall),
        b"'P'" => Some(VSymbol::To1),
        b"'N'" => Some(VSymbol::To0),
        b"'p'" => Some(VSymbol::From0),
        b"'n'" => Some(VSymbol::From1),
        b"'*'" => Some(VSymbol::Change),
        _ => None,
    }
}

/// What a symbol stands for in a table of a state.
pub fn symbol_of(token: &[u8]) -> Option<VSymbol>
    ensures { result ≡ spec.symbol_of token.now }
{
    match level_of(token) {
        Some(level) => Some(VSymbol::Level(level)),
        None => change_of(token),
    }
}

/// Whether a symbol is an edge.
pub fn is_edge(symbol: VSymbol) -> bool
    ensures { result ≡ spec.is_edge symbol }
{
    !matches!(symbol, VSymbol::Level(_) | VSymbol::Steady)
}

/// Whether one of the symbols is an edge.
pub fn has_edge(symbols: &[VSymbol]) -> bool
    ensures { result ≡ list_any spec.is_edge symbols.now }
{
    for symbol in symbols {
        if is_edge(*symbol) {
            return true;
        }
    }
    false
}

/// The level of a symbol, which a row may want as its state.
fn state_in(symbol: VSymbol) -> Option<Trits>
    ensures { result ≡ spec.state_in symbol }
{
    match symbol {
        VSymbol::Level(level) => Some(level),
        _ => None,
    }
}

/// What a row of a state's table gives, by its last symbol.
fn next_in(symbol: VSymbol) -> Option<VNext>
    ensures { result ≡ spec.next_in symbol }
{
    match symbol {
        VSymbol::Level(Trits::Zero) => Some(VNext::Zero),
        VSymbol::Level(Trits::One) => Some(VNext::One),
        VSymbol::Level(Trits::Unknown) => Some(VNext::Unknown),
        VSymbol::Steady => Some(VNext::Keep),
        _ => None,
    }
}

/// The state that a row wants, by its symbol at a place.
pub fn state_at(symbols: &[VSymbol], at: usize) -> Option<Trits>
    ensures { result ≡ option_and_then spec.state_in (slice_get symbols.now at) }
{
    match symbols.get(at) {
        Some(symbol) => state_in(*symbol),
        None => None,
    }
}

/// What a row gives, by its symbol at a place.
pub fn result_at(symbols: &[VSymbol], at: usize) -> Option<VNext>
    ensures { result ≡ option_and_then spec.next_in (slice_get symbols.now at) }
{
    match symbols.get(at) {
        Some(symbol) => next_in(*symbol),
        None => None,
    }
}

/// The level that a row of a truth table gives.
pub fn value_of(level: Trits) -> Option<Trit>
    ensures { result ≡ spec.value_of level }
{
    match level {
        Trits::Zero => Some(Trit::Zero),
        Trits::One => Some(Trit::One),
        Trits::Unknown => Some(Trit::Unknown),
        Trits::Any | Trits::Binary => None,
    }
}
