//! Changes of the gates of a model's paths: a path is active by whether gates are 0.
ghost use Rattle.std.specs.Prelude.{◌≡◌, false};
ghost use Rattle.cell_machine.specs.Outputs.{is_zero};

use trit_cubes::Trit;

/// Whether a gate changed before, or this one changes between 0 and not 0.
pub fn is_gate_changed(before: bool, was: Trit, now: Trit) -> bool
    ensures { result ≡ false → (before ≡ false) × (is_zero was ≡ is_zero now) }
{
    before || (was == Trit::Zero) != (now == Trit::Zero)
}
