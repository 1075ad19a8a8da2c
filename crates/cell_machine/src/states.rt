//! The states of a cell at a change of an input.
ghost use Rattle.std.specs.Prelude.{◌≡◌, ◌<◌, ◌≤◌, [], ◌∷◌, ◌++◌, not, length, map, slice_get, Some, if◌then◌else◌};
ghost use Rattle.trit_cubes.specs.Filling.{same};
ghost use Rattle.cell_machine.specs.declared.groups.StateGroup.{StateGroup as StateGroupOf};
ghost use Rattle.cell_machine.specs.Names.{state_name};
ghost use Rattle.cell_machine.specs.Each.{each};
ghost use Rattle.cell_machine.specs.CellData.{data_of};
ghost use Rattle.cell_machine.specs.Inputs.{numbered_value as numbered_value_of};
ghost use Rattle.cell_machine.specs.StepTables.{AreStepTables};
ghost use Rattle.cell_machine.specs.CellTrace.{inputs_of, moved, violated, state_step, named_groups};

use crate::cells::Cell;
use crate::changes::Change;
use crate::entries::entry;
use crate::few::Few;
use crate::fillings::forced_filled;
use crate::group_tables::InputStep;
use crate::pin_values::{numbered_value, support_values};
use crate::tabled::tabled;
use sqlite_items::Items;
use trit_cubes::Trit;

/// A change of an input as the states see it.
#[derive(Clone, Copy)]
pub struct SeenChange<'a> {
    /// For each group the tables of its steps, one for each input.
    pub tables: &'a Items<Items<Option<InputStep>>>,
    /// Whether some check reports at it.
    pub reported: bool,
    /// The values of the inputs after it.
    pub inputs: &'a [Trit],
    /// The value that the changed input had.
    pub from: Trit,
    /// The change.
    pub change: Change,
}

/// The point of a change of an input: its value before, its value after, those of the other inputs, and the state.
fn change_point(others: &[usize], seen: &SeenChange, state: Trit) -> Few<Trit, 10>
    requires { length others.now ≤ 7 }
    ensures { result ≡ seen.now.from ∷ seen.now.change.to ∷ (map (numbered_value_of seen.now.inputs.now) others.now
        ++ state ∷ []) }
{
    let mut point = Few::new(Trit::Unknown);
    point.push(seen.from);
    point.push(seen.change.to);
    for other in others {
        point.push(numbered_value(seen.inputs, *other));
    }
    point.push(state);
    point
}

/// The next state of a group where no check reports.
fn moved(cell: &Cell, i: usize, seen: &SeenChange, state: Trit) -> Trit
    requires tables { AreStepTables (data_of cell.now) seen.now.tables.now }
    requires inside { i < length cell.now.groups }
    requires pin { seen.now.change.pin < inputs_of (data_of cell.now) }
    ensures { (group : StateGroupOf) → slice_get cell.now.groups i ≡ Some group
        → result ≡ moved cell.now.pins (record { name = state_name (length cell.now.pins) i; group = group }) seen.now.inputs.now
        seen.now.from seen.now.change state }
{
    match entry(entry(seen.tables, i), seen.change.pin) {
        Some(table) => {
            let point = change_point(table.others.as_slice(), seen, state);
            tabled(table.values.as_slice(), point.as_slice())
        }
        None => state,
    }
}

/// The state of a group where some check reports.
fn violated(cell: &Cell, i: usize, inputs: &[Trit]) -> Trit
    requires { i < length cell.now.groups }
    ensures { (group : StateGroupOf) → slice_get cell.now.groups i ≡ Some group
        → result ≡ violated cell.now.pins (record { name = state_name (length cell.now.pins) i; group = group }) inputs.now }
{
    let group = cell.group(i);
    let support = group.support.as_slice();
    let values = support_values(cell.pins.as_slice(), inputs, support);
    forced_filled(&group.kind, cell.state_name(i), support, values.as_slice())
}

/// The next state of a group at a change of an input: forced where some check reports, else moved.
fn state_step(cell: &Cell, i: usize, seen: &SeenChange, state: Trit) -> Trit
    requires tables { AreStepTables (data_of cell.now) seen.now.tables.now }
    requires inside { i < length cell.now.groups }
    requires pin { seen.now.change.pin < inputs_of (data_of cell.now) }
    ensures { (group : StateGroupOf) → slice_get cell.now.groups i ≡ Some group
        → result ≡ state_step seen.now.reported cell.now.pins
        (record { name = state_name (length cell.now.pins) i; group = group }) seen.now.inputs.now seen.now.from seen.now.change
        state }
{
    if seen.reported {
        violated(cell, i, seen.inputs)
    } else {
        moved(cell, i, seen, state)
    }
}

/// Takes the states of all groups over a change: where it is no event they stay.
pub fn change_states(cell: &Cell, seen: &SeenChange, states: &mut Items<Trit>)
    requires tables { AreStepTables (data_of cell.now) seen.now.tables.now }
    requires one_each { length states.old ≡ length cell.now.groups }
    requires pin { seen.now.change.pin < inputs_of (data_of cell.now) }
    ensures changed { states.new ≡ (if not (same seen.now.from seen.now.change.to)
        then each (λ g s. state_step seen.now.reported cell.now.pins g seen.now.inputs.now seen.now.from seen.now.change s)
        (named_groups (data_of cell.now)) states.old else states.old) }
    ensures len { length states.new ≡ length states.old }
{
    if seen.from != seen.change.to {
        step_states(cell, seen, states);
    }
}

/// Takes the states of all groups over an event.
fn step_states(cell: &Cell, seen: &SeenChange, states: &mut Items<Trit>)
    requires tables { AreStepTables (data_of cell.now) seen.now.tables.now }
    requires one_each { length states.old ≡ length cell.now.groups }
    requires pin { seen.now.change.pin < inputs_of (data_of cell.now) }
    ensures stepped { states.new ≡ each
        (λ g s. state_step seen.now.reported cell.now.pins g seen.now.inputs.now seen.now.from seen.now.change s)
        (named_groups (data_of cell.now)) states.old }
    ensures len { length states.new ≡ length states.old }
{
    for i in 0..states.len() {
        let state = states.as_slice()[i];
        states.set(i, state_step(cell, i, seen, state));
    }
}
