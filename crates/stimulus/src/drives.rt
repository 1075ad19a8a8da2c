//! What an output shows.
ghost use Rattle.std.specs.Prelude.{◌≡◌};
ghost use Rattle.stimulus.specs.DriveLines.{drive_of};

use trit_cubes::Trit;

/// What an output shows. (IEEE 1364-2005, clause 4.1, the value set; IEEE 1164, `'0'`, `'1'`, `'X'` and `'Z'`.)
#[derive(Clone, Copy)]
pub enum Drive {
    /// 0.
    Zero,
    /// 1.
    One,
    /// Not known, printed `x`.
    Unknown,
    /// Not driven: the high impedance, printed `z`.
    Floating,
}

impl Drive {
    /// The drive that shows a value.
    pub fn of(value: Trit) -> Drive
        ensures { result ≡ drive_of value }
    {
        match value {
            Trit::Zero => Drive::Zero,
            Trit::One => Drive::One,
            Trit::Unknown => Drive::Unknown,
        }
    }
}
