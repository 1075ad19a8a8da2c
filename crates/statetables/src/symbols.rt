//! The symbols of a row, and the values that they match or give.
ghost use Rattle.std.specs.Prelude.{◌≡◌};
ghost use Rattle.statetables.specs.Symbols.{matches_in, matches_now, next_value};

/// The symbol of an input: which value before a change and which after it the row takes.
#[derive(Clone, Copy)]
pub enum InSymbol {
    /// `L`: 0 after the change.
    Low,
    /// `H`: 1 after the change.
    High,
    /// `-`: any values.
    Any,
    /// `R`: 0 before the change and 1 after it.
    Rise,
    /// `F`: 1 before the change and 0 after it.
    Fall,
    /// `~R`: anything but 0 before and 1 after.
    NotRise,
    /// `~F`: anything but 1 before and 0 after.
    NotFall,
}

/// The symbol of a node's present state: which states the row takes.
#[derive(Clone, Copy)]
pub enum CurrentSymbol {
    /// `L`: 0.
    Low,
    /// `H`: 1.
    High,
    /// `-`: 0 and 1.
    Any,
}

/// The symbol of a node's next state.
#[derive(Clone, Copy)]
pub enum NextSymbol {
    /// `L`: 0.
    Low,
    /// `H`: 1.
    High,
    /// `N`: the present state.
    Keep,
    /// `X` or `-`: not known.
    Unknown,
}

impl InSymbol {
    /// Whether an input that is `before` ahead of a change and `after` behind it fits the symbol.
    pub fn matches(self, before: bool, after: bool) -> bool
        ensures { result ≡ matches_in self before after }
    {
        match self {
            InSymbol::Low => !after,
            InSymbol::High => after,
            InSymbol::Any => true,
            InSymbol::Rise => !before && after,
            InSymbol::Fall => before && !after,
            InSymbol::NotRise => before || !after,
            InSymbol::NotFall => !before || after,
        }
    }
}

impl CurrentSymbol {
    /// Whether a present `state` fits the symbol.
    pub fn matches(self, state: bool) -> bool
        ensures { result ≡ matches_now self state }
    {
        match self {
            CurrentSymbol::Low => !state,
            CurrentSymbol::High => state,
            CurrentSymbol::Any => true,
        }
    }
}

impl NextSymbol {
    /// The next state where the present one is `state`: None where it is not known.
    pub fn value(self, state: bool) -> Option<bool>
        ensures { result ≡ next_value self state }
    {
        match self {
            NextSymbol::Low => Some(false),
            NextSymbol::High => Some(true),
            NextSymbol::Keep => Some(state),
            NextSymbol::Unknown => None,
        }
    }
}
