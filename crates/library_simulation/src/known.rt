//! Cells and the models that stand for them, with what is known of them before any change, of those that were run, so that
//! another section of one begins with it.
ghost use Rattle.std.specs.Prelude.{◌≡◌, ◌<◌, None, Some, length, slice_index_or, OnOk};
ghost use Rattle.library_reader.specs.LibraryCells.{all_described};
ghost use Rattle.library_simulation.specs.Catalog.{simulated_of};
ghost use Rattle.library_simulation.specs.Sections.{CanBeCompared};
ghost use Rattle.library_simulation.specs.declared.known_beside.KnownBeside.{KnownBeside as KnownOf};
ghost use Rattle.library_simulation.specs.KnownBesides.{AreBesides};

use crate::comparisons::stands_beside;
use crate::known_beside::KnownBeside;
use crate::simulation::Simulation;
use std::alloc::{AllocError, Global};
use stimulus::Section;

/// Finds what is known of the cell of a section and of the models that stand for it, where it was not found before.
pub(crate) fn learn<'a>(
    alloc: Global,
    simulation: &'a Simulation,
    known: &mut Vec<Option<KnownBeside<'a>>>,
    section: &Section,
) -> Result<(), AllocError>
    requires simulated { simulation.now.simulated ≡ simulated_of (all_described simulation.now.read.cells)
        simulation.now.read.modules simulation.now.read.entities }
    requires run { CanBeCompared (all_described simulation.now.read.cells) simulation.now.read.modules
        simulation.now.read.entities section.now }
    requires inside { section.now.cell < length known.old.items }
    ensures known { OnOk result (AreBesides simulation.now known.old.items → AreBesides simulation.now known.new.items) }
    ensures found { OnOk result ((beside : KnownOf) × (slice_index_or known.new.items section.now.cell None ≡ Some beside)) }
    ensures len { OnOk result (length known.new.items ≡ length known.old.items) }
{
    if known[section.cell].is_none() {
        let beside = stands_beside(simulation, section);
        known[section.cell] = Some(KnownBeside::of(alloc, beside)?);
    }
    Ok(())
}
