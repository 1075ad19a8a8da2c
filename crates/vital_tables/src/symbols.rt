//! The symbols of VITAL's tables for the places of a cube.
ghost use Rattle.std.specs.Prelude.{◌≡◌};
ghost use Rattle.vital_tables.specs.Rows.{edge_symbol};

use crate::table::{Trits, VSymbol};
use trit_cubes::Trit;
use udp_tables::PlaceSymbol;

impl PlaceSymbol for Trits {
    ghost use Rattle.vital_tables.specs.Rows.{level_of};

    ghost of_place = { level_of };

    fn of_place(place: Trit) -> Trits {
        match place {
            Trit::Zero => Trits::Zero,
            Trit::One => Trits::One,
            Trit::Unknown => Trits::Any,
        }
    }
}

impl PlaceSymbol for VSymbol {
    ghost use Rattle.vital_tables.specs.Rows.{level_symbol};

    ghost of_place = { level_symbol };

    fn of_place(place: Trit) -> VSymbol {
        VSymbol::Level(Trits::of_place(place))
    }
}

/// The symbol for a change from the value of one place to that of another one, each free where it is unknown.
pub(crate) fn edge_symbol(old: Trit, new: Trit) -> VSymbol
    ensures { result ≡ edge_symbol old new }
{
    match (old, new) {
        (Trit::Zero, Trit::One) => VSymbol::Rise,
        (Trit::Zero, Trit::Zero | Trit::Unknown) => VSymbol::From0,
        (Trit::One, Trit::Zero) => VSymbol::Fall,
        (Trit::One, Trit::One | Trit::Unknown) => VSymbol::From1,
        (Trit::Unknown, Trit::Zero) => VSymbol::To0,
        (Trit::Unknown, Trit::One) => VSymbol::To1,
        (Trit::Unknown, Trit::Unknown) => VSymbol::Change,
    }
}
