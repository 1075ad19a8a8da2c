//! The symbols of tables: each is one byte between quotes. (IEEE 1076.4-2000, the VITAL table symbols; IEEE 1076-1993, 13.5.)
ghost use Rattle.std.specs.Prelude.{◌≡◌};
ghost use Rattle.vhdl_writer.specs.Tables.{quoted, level_text, symbol_text, next_text, value_text, symbol_apart_text};
ghost use Rattle.vhdl_writer.specs.Tables.{level_apart_text};

use crate::parts::{At, ItemText};
use text_io::{Bytes, Desk, Line, OutSlot, Part, Put, parts};
use trit_cubes::Trit;
use vital_models::{Trits, VNext, VSymbol};

/// The symbol of a level.
pub(crate) fn level_symbol(level: Trits) -> u8
    ensures { quoted result ≡ level_text level }
{
    match level {
        Trits::Any => b'-',
        Trits::Binary => b'B',
        Trits::Zero => value_symbol(Trit::Zero),
        Trits::One => value_symbol(Trit::One),
        Trits::Unknown => value_symbol(Trit::Unknown),
    }
}

/// The symbol of a column of a state's table.
fn column_symbol(symbol: VSymbol) -> u8
    ensures { quoted result ≡ symbol_text symbol }
{
    match symbol {
        VSymbol::Level(level) => level_symbol(level),
        VSymbol::Steady => b'S',
        VSymbol::Rise => b'/',
        VSymbol::Fall => b'\\',
        VSymbol::To1 => b'P',
        VSymbol::To0 => b'N',
        VSymbol::From0 => b'p',
        VSymbol::From1 => b'n',
        VSymbol::Change => b'*',
    }
}

/// The symbol of what a row of a state's table gives.
pub(crate) fn next_symbol(next: VNext) -> u8
    ensures { quoted result ≡ next_text next }
{
    match next {
        VNext::Keep => b'S',
        VNext::Zero => value_symbol(Trit::Zero),
        VNext::One => value_symbol(Trit::One),
        VNext::Unknown => value_symbol(Trit::Unknown),
    }
}

/// The symbol of what a row of a truth table gives.
pub(crate) fn value_symbol(value: Trit) -> u8
    ensures { quoted result ≡ value_text value }
{
    match value {
        Trit::Zero => b'0',
        Trit::One => b'1',
        Trit::Unknown => b'X',
    }
}

/// A symbol between quotes.
#[derive(Drop)]
pub(crate) struct Quoted(pub(crate) u8);

impl Part for Quoted {
    ghost text = { λ q. quoted q.0 };

    fn put<D: Desk>(&self, line: &mut Line, desk: &mut D, slot: OutSlot) -> Put {
        line.put(desk, slot, &[b'\'', self.0, b'\''])
    }
}

/// Columns of a row of a table, with what separates each from the next one.
#[derive(Drop)]
pub(crate) struct Columns;

impl ItemText<VSymbol> for Columns {
    ghost text = { λ _ n s. symbol_apart_text n s };

    #[tactic(auto, unfolding(crate::specs::Tables::symbol_apart_text))]
    fn put<D: Desk>(&self, at: &At<VSymbol>, line: &mut Line, desk: &mut D, slot: OutSlot) -> Put {
        parts!(Quoted(column_symbol(*at.item)), Bytes(b", ")).put(line, desk, slot)
    }
}

impl ItemText<Trits> for Columns {
    ghost text = { λ _ n level. level_apart_text n level };

    #[tactic(auto, unfolding(crate::specs::Tables::level_apart_text))]
    fn put<D: Desk>(&self, at: &At<Trits>, line: &mut Line, desk: &mut D, slot: OutSlot) -> Put {
        parts!(Quoted(level_symbol(*at.item)), Bytes(b", ")).put(line, desk, slot)
    }
}
