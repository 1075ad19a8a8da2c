//! What a cell's simulator keeps of the cell's arcs from one change to the next.
ghost use Rattle.std.specs.Prelude.{◌≡◌, ◌<◌, IfOk, None, [], length, replicate, slice_index_or};

use crate::arc_places::ArcPlaces;
use crate::delays::Delays;
use crate::entries::{entry, repeated};
use crate::kept_conditions::forget;
use sqlite_items::Items;
use std::alloc::{AllocError, Global};
use trit_cubes::Trit;

/// What is kept of the arcs, each by its number.
#[derive(Drop)]
pub struct KeptArcs {
    /// The value of the arc's condition, 0 where it has none.
    pub conditions: Items<Option<Trit>>,
    /// Of the first arc of two pins the least delays that the arcs of the two give.
    pub delays: Items<Option<Delays>>,
}

impl KeptArcs {
    ghost use Rattle.cell_machine.specs.Places.{AreBelow};
    ghost use Rattle.cell_machine.specs.KeptConditions.{AreForgotten};

    /// Nothing of so many arcs.
    pub(crate) fn none(alloc: Global, count: usize) -> Result<KeptArcs, AllocError>
        ensures { IfOk result (λ kept. kept ≡ record { conditions = replicate count None; delays = replicate count None }) }
    {
        let conditions = repeated(alloc, None, count)?;
        let delays = repeated(alloc, None, count)?;
        Ok(KeptArcs { conditions, delays })
    }

    /// Forgets what hangs on an input: the values of the conditions that name it, and the least delays of two pins of which
    /// some arc's condition names it.
    pub(crate) fn forget(&mut self, places: &ArcPlaces, input: usize)
        requires naming { input < length places.now.naming }
        requires firsts { input < length places.now.firsts }
        requires conditions { AreBelow (length self.old.conditions) (slice_index_or places.now.naming input []) }
        requires delays { AreBelow (length self.old.delays) (slice_index_or places.now.firsts input []) }
        ensures conditions { AreForgotten (slice_index_or places.now.naming input []) self.old.conditions self.new.conditions }
        ensures delays { AreForgotten (slice_index_or places.now.firsts input []) self.old.delays self.new.delays }
    {
        forget(
            entry(&places.naming, input).as_slice(),
            &mut self.conditions,
        );
        forget(entry(&places.firsts, input).as_slice(), &mut self.delays);
    }
}
