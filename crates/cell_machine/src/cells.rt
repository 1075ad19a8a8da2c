//! A cell as data.
ghost use Rattle.std.specs.Prelude.{IsTrue};
ghost use Rattle.cell_machine.specs.CellRules.{is_cell, AreApart};

use crate::arcs::Arc;
use crate::checks::Check;
use crate::entries::entry;
use crate::groups::StateGroup;
use crate::outputs::OutputPin;
use crate::pins::Pin;
use sqlite_items::Items;

/// A cell: its pins, its states, its outputs and its timing.
///
/// The names of its functions are numbered. With P pins the name i below P is pin i, the name P + 2g is the state of
/// group g, and P + 2g + 1 is the group's second variable. An internal pin stands as the state that it names.
#[derive(Drop)]
pub struct Cell {
    /// The name, in bytes.
    pub name: Items<u8>,
    /// The cell's place among all cells of its library.
    pub number: usize,
    /// The pins, in their order.
    pub pins: Items<Pin>,
    /// The groups that hold a state, in their order.
    pub groups: Items<StateGroup>,
    /// One for each output pin, in the order of the pins.
    pub outputs: Items<OutputPin>,
    /// The timing checks.
    pub checks: Items<Check>,
    /// The delay arcs, in the order of the output pins where they end.
    pub arcs: Items<Arc>,
    /// What holds of every cell.
    pub ghost sound: { IsTrue (is_cell name pins groups outputs checks arcs) },
    /// No two arcs have the same two pins and the same condition.
    pub ghost apart: { AreApart arcs },
}

impl Cell {
    ghost use Rattle.std.specs.Prelude.{◌≡◌, ◌+◌, ◌*◌, ◌<◌, length, slice_get, slice_index_or, Some};
    ghost use Rattle.cell_machine.specs.Names.{state_name};
    ghost use Rattle.cell_machine.specs.Values.{IsBounded};
    ghost use Rattle.cell_machine.specs.Supports.{GroupFacts, OutputFacts, CheckFacts};

    /// The group with this number.
    pub fn group(&self, i: usize) -> &StateGroup
        requires { i < length self.now.groups }
        ensures is { slice_get self.now.groups i ≡ Some result.now }
        ensures at { slice_index_or self.now.groups i result.now ≡ result.now }
        ensures facts { GroupFacts (length self.now.pins + 2 * i) result.now }
    {
        entry(&self.groups, i)
    }

    /// The name of the state of a group.
    pub fn state_name(&self, i: usize) -> usize
        requires { i < length self.now.groups }
        ensures name { result ≡ state_name (length self.now.pins) i }
        ensures small { result + 1 < 96 }
    {
        self.pins.len() + 2 * i
    }

    /// The output with this number among the outputs.
    pub fn output_pin(&self, i: usize) -> &OutputPin
        requires { i < length self.now.outputs }
        ensures is { slice_get self.now.outputs i ≡ Some result.now }
        ensures at { slice_index_or self.now.outputs i result.now ≡ result.now }
        ensures facts { OutputFacts (length self.now.groups) result.now }
    {
        entry(&self.outputs, i)
    }

    /// The check with this number.
    pub fn check(&self, i: usize) -> &Check
        requires { i < length self.now.checks }
        ensures is { slice_get self.now.checks i ≡ Some result.now }
        ensures at { slice_index_or self.now.checks i result.now ≡ result.now }
        ensures facts { CheckFacts self.now.pins result.now }
    {
        entry(&self.checks, i)
    }

    /// The arc with this number.
    pub fn arc(&self, i: usize) -> &Arc
        requires { i < length self.now.arcs }
        ensures is { slice_get self.now.arcs i ≡ Some result.now }
        ensures at { slice_index_or self.now.arcs i result.now ≡ result.now }
        ensures bounded { IsBounded result.now.condition }
    {
        entry(&self.arcs, i)
    }
}
