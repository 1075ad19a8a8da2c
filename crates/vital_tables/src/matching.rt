//! What the symbols of a table match, and what its rows give.
ghost use Rattle.std.specs.Prelude.{◌≡◌};
ghost use Rattle.vital_tables.specs.Symbols.{trits_match, symbol_matches, next_of};

use crate::table::{Trits, VNext, VSymbol};
use trit_cubes::Trit;
use udp_tables::Column;

impl Trits {
    /// Whether the level stands for this value.
    pub fn matches(self, value: Trit) -> bool
        ensures { result ≡ trits_match self value }
    {
        self.level().matches(value)
    }
}

impl VSymbol {
    /// Whether the symbol matches a column with this value before and this one now.
    pub fn matches(self, old: Trit, new: Trit) -> bool
        ensures { result ≡ symbol_matches self old new }
    {
        match self {
            VSymbol::Level(level) => level.matches(new),
            VSymbol::Steady => old == new,
            VSymbol::Rise => old == Trit::Zero && new == Trit::One,
            VSymbol::Fall => old == Trit::One && new == Trit::Zero,
            VSymbol::To1 => old != new && new == Trit::One,
            VSymbol::To0 => old != new && new == Trit::Zero,
            VSymbol::From0 => old != new && old == Trit::Zero,
            VSymbol::From1 => old != new && old == Trit::One,
            VSymbol::Change => old != new,
        }
    }
}

impl VNext {
    /// What a row gives in this state.
    pub fn after(self, state: Trit) -> Trit
        ensures { result ≡ next_of state self }
    {
        match self {
            VNext::Keep => state,
            VNext::Zero => Trit::Zero,
            VNext::One => Trit::One,
            VNext::Unknown => Trit::Unknown,
        }
    }
}
