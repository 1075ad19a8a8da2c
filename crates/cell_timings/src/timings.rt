//! The checks and the delay arcs of a cell, what it leaves out, and where its timing is wrong.
ghost use Rattle.std.specs.Prelude.{◌≡◌, [], ◌++◌, OnOk};
ghost use Rattle.cell_timings.specs.CellTimings.{timing_told, timing_and, pin_told};

use crate::left_out::{LeftOut, add_left_out};
use crate::offsets::{LeastOffsets, NameOffsets};
use cell_machine::{Arc, Check};
use liberty_groups::Group;
use sqlite_items::Items;
use std::alloc::{AllocError, Global};
use timing_arcs::{PinTiming, TimingFault};

/// The timing of the pins of a cell, in their order. No more is kept of what reading the timing of a pin answers.
#[derive(Drop)]
pub struct CellTiming {
    pub checks: Items<Check>,
    pub arcs: Items<Arc>,
    /// Where these are made.
    pub made_at: MadeAt,
    /// The timing groups that make no check and no arc of their types.
    pub left_out: Items<LeftOut>,
    /// Where the timing is wrong.
    pub least: LeastOffsets,
}

/// Where checks and arcs are made.
#[derive(Drop)]
pub struct MadeAt {
    /// For each check the offset of what first makes it.
    pub checks: Items<usize>,
    /// For each arc the offset of what first makes it.
    pub arcs: Items<usize>,
}

impl CellTiming {
    /// The timing of no pin.
    pub(crate) fn new(alloc: Global) -> CellTiming
        ensures { result ≡ timing_told 0 [] [] }
    {
        CellTiming {
            checks: Items::new(alloc),
            arcs: Items::new(alloc),
            made_at: MadeAt {
                checks: Items::new(alloc),
                arcs: Items::new(alloc),
            },
            left_out: Items::new(alloc),
            least: LeastOffsets {
                malformed: None,
                names: NameOffsets {
                    unknown: None,
                    own: None,
                },
                number: None,
                wide: None,
            },
        }
    }

    /// Takes in what reading the timing of the pin with this number answers, whose group this is.
    pub(crate) fn add(
        &mut self,
        alloc: Global,
        pin: usize,
        owner: &Group,
        answer: Result<PinTiming, TimingFault>,
    ) -> Result<(), AllocError>
        ensures { OnOk result (self.new ≡ timing_and self.old (pin_told pin owner.now answer)) }
    {
        self.least.add(&answer);
        let Ok(timing) = answer else {
            return Ok(());
        };
        append_both(&mut self.checks, timing.checks, &mut self.arcs, timing.arcs)?;
        append_both(
            &mut self.made_at.checks,
            timing.check_at,
            &mut self.made_at.arcs,
            timing.arc_at,
        )?;
        let places = timing.left_out.as_slice();
        add_left_out(alloc, &mut self.left_out, pin, owner, places)
    }
}

/// Appends to two lists. It is a function of any types, so that what is appended is let go at one place.
fn append_both<T: Drop, U: Drop>(
    one: &mut Items<T>,
    more: Items<T>,
    other: &mut Items<U>,
    others: Items<U>,
) -> Result<(), AllocError>
    ensures one { OnOk result (one.new ≡ one.old ++ more) }
    ensures other { OnOk result (other.new ≡ other.old ++ others) }
{
    one.append(more)?;
    other.append(others)
}
