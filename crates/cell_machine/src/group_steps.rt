//! The step of a cell's group, and the values to which inputs force it.
ghost use Rattle.std.specs.Prelude.{◌≡◌, ◌+◌, ◌*◌, ◌<◌, List, Bool, length, slice_get, Some};
ghost use Rattle.cell_machine.specs.Machine.{forced as forced_value};
ghost use Rattle.cell_machine.specs.CellData.{data_of};
ghost use Rattle.cell_machine.specs.CellTrace.{step_at, support_at};

use crate::cells::Cell;
use crate::fillings::forced_filled;
use crate::values::Values;
use trit_cubes::Trit;

/// The step of a group at points of its support: its next state, where the inputs are `before` ahead of a change and
/// `after` behind it, and its state is `s`; unknown where the step is. (Liberty Reference Manual, `ff`, `latch` and
/// `statetable` groups.)
pub fn boolean_step(cell: &Cell, group: usize, before: &[bool], after: &[bool], s: bool) -> Trit
    requires group { group < length cell.now.groups }
    requires before { length before.now ≡ length (support_at (data_of cell.now) group) }
    requires after { length after.now ≡ length (support_at (data_of cell.now) group) }
    ensures { result ≡ step_at (data_of cell.now) group before.now after.now s }
{
    let name = cell.state_name(group);
    let group = cell.group(group);
    let support = group.support.as_slice();
    let before = Values::new().written(support, before);
    let after = Values::new().written(support, after);
    group.kind.step(name, &before, &after, s)
}

/// The value to which inputs force the state of a group: that which its step gives for both states, at each filling of
/// the inputs after a change and from each point that equals it or differs from it in one place; else unknown. `pins`
/// holds a value for each pin of the support.
pub fn forced(cell: &Cell, group: usize, pins: &[Trit]) -> Trit
    requires group { group < length cell.now.groups }
    requires pins { length pins.now ≡ length (support_at (data_of cell.now) group) }
    ensures { result ≡ forced_value (step_at (data_of cell.now) group) pins.now }
{
    let name = cell.state_name(group);
    let group = cell.group(group);
    forced_filled(&group.kind, name, group.support.as_slice(), pins)
}
