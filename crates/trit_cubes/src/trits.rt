//! Trits: 0, 1 and unknown.

ghost use Rattle.std.specs.Prelude.{◌≡◌};
ghost use Rattle.trit_cubes.specs.Filling.{is_unknown, same, trit_of};
ghost use Rattle.trit_cubes.specs.Resolution.{agreed};
ghost use Rattle.trit_cubes.specs.Words.{fixed_bit, value_bit};

/// A truth value of a pin or a state.
#[derive(Clone, Copy, PartialEq, Eq)]
pub enum Trit {
    /// 0.
    Zero,
    /// 1.
    One,
    /// Not known to be 0 or 1; at a place of a cube, free.
    Unknown,
}

impl Trit {
    /// Whether this is neither 0 nor 1.
    pub fn is_unknown(self) -> bool
        ensures { result ≡ is_unknown self }
    {
        match self {
            Trit::Unknown => true,
            _ => false,
        }
    }

    /// The value of both where they are equal, else unknown.
    pub fn agreed(self, other: Trit) -> Trit
        ensures { result ≡ agreed self other }
    {
        if self == other { self } else { Trit::Unknown }
    }

    /// Whether both are the same.
    pub(crate) fn is(self, other: Trit) -> bool
        ensures { result ≡ same self other }
    {
        self == other
    }

    /// Whether this is known, and whether it is 1, each as a bit.
    pub(crate) fn bits(self) -> (u16, u16)
        ensures known { result.0 ≡ fixed_bit self }
        ensures one { result.1 ≡ value_bit self }
    {
        match self {
            Trit::Zero => (1, 0),
            Trit::One => (1, 1),
            Trit::Unknown => (0, 0),
        }
    }
}

impl From<bool> for Trit {
    ghost from_gives = { λ known trit. trit ≡ trit_of known };

    fn from(known: bool) -> Trit {
        if known { Trit::One } else { Trit::Zero }
    }
}
