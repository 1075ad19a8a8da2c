//! The symbols of a table's entries: each is one byte.

ghost use Rattle.std.specs.Prelude.{◌≡◌, [], ◌∷◌};
ghost use Rattle.verilog_writer.specs.Symbols.{level_text, next_text};

use udp_tables::{Level, Next};

/// The symbol of a level.
pub(crate) fn level_symbol(level: Level) -> u8
    ensures { result ∷ [] ≡ level_text level }
{
    match level {
        Level::Zero => b'0',
        Level::One => b'1',
        Level::Unknown => b'x',
        Level::Any => b'?',
        Level::Binary => b'b',
    }
}

/// The symbol of what a row gives.
pub(crate) fn next_symbol(next: Next) -> u8
    ensures { result ∷ [] ≡ next_text next }
{
    match next {
        Next::Keep => b'-',
        Next::Zero => level_symbol(Level::Zero),
        Next::One => level_symbol(Level::One),
        Next::Unknown => level_symbol(Level::Unknown),
    }
}
