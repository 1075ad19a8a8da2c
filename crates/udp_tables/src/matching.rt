//! What the symbols of a table match, and what its rows give, by IEEE 1364-2005, clause 8.
ghost use Rattle.std.specs.Prelude.{◌≡◌};
ghost use Rattle.trit_cubes.specs.Filling.{same};
ghost use Rattle.udp_tables.specs.Primitive.{level_matches, goes, entry_matches, next_of, is_level};

use crate::table::{Entry, Level, Next};
use trit_cubes::Trit;

/// Whether an input goes from this value to that one.
fn goes(from: Trit, to: Trit, old: Trit, new: Trit) -> bool
    ensures { result ≡ goes from to old new }
{
    from == old && to == new
}

/// Whether two values are equal.
fn same(one: Trit, other: Trit) -> bool
    ensures { result ≡ same one other }
{
    one == other
}

impl Entry {
    /// Whether the entry matches an input that goes from this value to that one, or keeps its value.
    pub fn matches(self, old: Trit, new: Trit) -> bool
        ensures { result ≡ entry_matches self old new }
    {
        match self {
            Entry::Level(level) => level.matches(new),
            Entry::Pair(from, to) => !same(old, new) && from.matches(old) && to.matches(new),
            Entry::R => goes(Trit::Zero, Trit::One, old, new),
            Entry::F => goes(Trit::One, Trit::Zero, old, new),
            Entry::P => {
                goes(Trit::Zero, Trit::One, old, new)
                    || goes(Trit::Zero, Trit::Unknown, old, new)
                    || goes(Trit::Unknown, Trit::One, old, new)
            }
            Entry::N => {
                goes(Trit::One, Trit::Zero, old, new)
                    || goes(Trit::One, Trit::Unknown, old, new)
                    || goes(Trit::Unknown, Trit::Zero, old, new)
            }
            Entry::Star => !same(old, new),
        }
    }

    /// Whether the entry is a level, and no change.
    pub fn is_level(self) -> bool
        ensures { result ≡ is_level self }
    {
        match self {
            Entry::Level(_) => true,
            Entry::Pair(_, _) => false,
            Entry::R => false,
            Entry::F => false,
            Entry::P => false,
            Entry::N => false,
            Entry::Star => false,
        }
    }
}

impl Level {
    /// Whether the level matches this value.
    pub fn matches(self, value: Trit) -> bool
        ensures { result ≡ level_matches self value }
    {
        match self {
            Level::Zero => value == Trit::Zero,
            Level::One => value == Trit::One,
            Level::Unknown => value == Trit::Unknown,
            Level::Any => true,
            Level::Binary => value != Trit::Unknown,
        }
    }
}

impl Next {
    /// What a row gives in this state.
    pub fn after(self, state: Trit) -> Trit
        ensures { result ≡ next_of state self }
    {
        match self {
            Next::Zero => Trit::Zero,
            Next::One => Trit::One,
            Next::Unknown => Trit::Unknown,
            Next::Keep => state,
        }
    }
}
