//! What a three-state buffer drives.
ghost use Rattle.std.specs.Prelude.{◌≡◌};
ghost use Rattle.driven_traces.specs.Drives.{drive as drive_as};

use stimulus::Drive;
use trit_cubes::Trit;

/// What a three-state buffer of this value drives under this enable: the value where the enable is 1, nothing where it is 0,
/// and an unknown value where the enable is unknown. (IEEE 1364-2005, clause 7.4, `bufif1`; IEEE 1076.4-2000, `VitalBUFIF1`;
/// that an unknown enable leaves no strengths is this project's rule.)
pub fn drive(value: Trit, enable: Trit) -> Drive
    ensures { result ≡ drive_as value enable }
{
    match enable {
        Trit::Zero => Drive::Floating,
        Trit::One => Drive::of(value),
        Trit::Unknown => Drive::Unknown,
    }
}
