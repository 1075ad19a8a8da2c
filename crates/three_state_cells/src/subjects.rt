//! The pins of a core, one of which is looked at.
ghost use Rattle.std.specs.Prelude.{◌≡◌};
ghost use Rattle.cell_reader.specs.PinTimings.{subject_at};

use timing_arcs::Subject;

/// Looks at the pin with this number.
pub(crate) fn move_to(core: &mut Subject, pin: usize)
    ensures { core.new ≡ subject_at core.old pin }
{
    core.place = pin;
}
