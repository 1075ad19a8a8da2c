//! The values of outputs at points, and of conditions: a function is tried on each filling of what it names.
ghost use Rattle.std.specs.Prelude.{◌≡◌, ◌+◌, ◌<◌, ◌≤◌, [], ◌∷◌, length, map};
ghost use Rattle.trit_cubes.specs.Filling.{trit_of};
ghost use Rattle.trit_cubes.specs.Resolution.{res};
ghost use Rattle.bool_functions.specs.Tree.{value_of, name_bound};
ghost use Rattle.bool_functions.specs.Support.{support_of};
ghost use Rattle.cell_machine.specs.Names.{source_name};
ghost use Rattle.cell_machine.specs.Values.{no_values, written, IsBounded};
ghost use Rattle.cell_machine.specs.Step.{KindIsBounded};
ghost use Rattle.cell_machine.specs.Outputs.{second_by, second_value, second_names, second_trits, condition_at};
ghost use Rattle.cell_machine.specs.Inputs.{pin_value, pin_values};
ghost use Rattle.cell_machine.specs.CellData.{data_of};
ghost use Rattle.cell_machine.specs.CellTrace.{sources_at, output_value_at, condition_names, condition_value, condition_holds};
ghost use Rattle.cell_machine.specs.Supports.{StatesBelow};

use crate::cells::Cell;
use crate::groups::{Both, GroupKind};
use crate::outputs::Source;
use crate::over::filled;
use crate::pin_values::pin_value;
use crate::pins::Pin;
use crate::steps::both_value;
use crate::values::Values;
use bool_functions::Function;
use trit_cubes::Trit;

/// The second variable of a group with the state `state`.
fn second_by(
    clear: &Option<Function>,
    preset: &Option<Function>,
    both: Both,
    values: &Values,
    state: bool,
) -> Trit
    requires clear { IsBounded clear.now }
    requires preset { IsBounded preset.now }
    ensures { result ≡ second_by clear.now preset.now both values.now state }
{
    if values.is_on(clear) && values.is_on(preset) {
        both_value(both, state)
    } else {
        Trit::from(!state)
    }
}

impl GroupKind {
    ghost use Rattle.cell_machine.specs.Outputs.{second_of};

    /// The second variable at a point with the state `state`, unknown where it may have either value.
    fn second(&self, values: &Values, state: bool) -> Trit
        requires { KindIsBounded self.now }
        ensures { result ≡ second_of self.now values.now state }
    {
        match self {
            GroupKind::Ff(kind) => second_by(&kind.clear, &kind.preset, kind.both2, values, state),
            GroupKind::Latch(kind) => second_by(
                &kind.clear,
                &kind.preset,
                kind.both2,
                values,
                state,
            ),
            GroupKind::Table { .. } => Trit::from(!state),
        }
    }
}

/// The second variable of group g, unknown where there is no such group.
fn second_value(cell: &Cell, values: &Values, g: usize) -> Trit
    ensures { result ≡ second_value (length cell.now.pins) cell.now.groups values.now g }
{
    if g >= cell.groups.len() {
        return Trit::Unknown;
    }
    let name = cell.state_name(g);
    cell.group(g).kind.second(values, values.get(name))
}

/// The value of a function for each choice of the second variables that may have either value. `values` are those of the
/// sources, `filled` those with the second variables written over.
fn chosen_from(
    cell: &Cell,
    function: &Function,
    rest: &[Source],
    values: &Values,
    filled: &mut Values,
) -> Trit
    requires bounded { name_bound function.now ≤ 96 }
    requires states { StatesBelow (length cell.now.groups) rest.now }
    ensures { result ≡ res (λ choice. trit_of
        (value_of (written filled.old (second_names (length cell.now.pins) rest.now) choice) function.now))
        (second_trits (length cell.now.pins) cell.now.groups values.now rest.now) }
{
    let Some((first, rest)) = rest.split_first() else {
        return Trit::from(filled.value(function));
    };
    let Source::State(g) = *first else {
        return chosen_from(cell, function, rest, values, filled);
    };
    let name = cell.state_name(g) + 1;
    filled!(
        second_value(cell, values, g),
        filled,
        name => chosen_from(cell, function, rest, values, filled)
    )
}

/// The name of a source.
fn source_name(cell: &Cell, source: Source) -> usize
    requires { StatesBelow (length cell.now.groups) (source ∷ []) }
    ensures { result ≡ source_name (length cell.now.pins) source }
{
    match source {
        Source::Pin(pin) => pin,
        Source::State(g) => cell.state_name(g),
    }
}

/// The values of the names where these sources have the values of a point.
fn values_at(cell: &Cell, sources: &[Source], point: &[bool]) -> Values
    requires lengths { length sources.now ≡ length point.now }
    requires states { StatesBelow (length cell.now.groups) sources.now }
    ensures { result ≡ written no_values (map (source_name (length cell.now.pins)) sources.now) point.now }
{
    let mut values = Values::new();
    for i in 0..sources.len() {
        values.set(source_name(cell, sources[i]), point[i]);
    }
    values
}

/// The value of the output with this number from 0, where the pins and the states of its support have the values of
/// `point`, one for each. The second variable of a group is what the group gives there; where it may have either value
/// and the output is not the same for both, the answer is unknown. (Liberty Reference Manual, `function`, and
/// `clear_preset_var2` of `ff` and `latch` groups.)
pub fn output_at(cell: &Cell, output: usize, point: &[bool]) -> Trit
    requires output { output < length cell.now.outputs }
    requires point { length point.now ≡ length (sources_at (data_of cell.now) output) }
    ensures { result ≡ output_value_at (data_of cell.now) output point.now }
{
    let output = cell.output_pin(output);
    let sources = output.support.as_slice();
    let values = values_at(cell, sources, point);
    let mut filled = values;
    chosen_from(cell, &output.function, sources, &values, &mut filled)
}

/// The value of a condition, for each filling of the pins in `rest`.
fn condition_from(
    condition: &Function,
    pins: &[Pin],
    inputs: &[Trit],
    rest: &[usize],
    values: &mut Values,
) -> Trit
    requires { name_bound condition.now ≤ 96 }
    ensures { result ≡ res (λ p. trit_of (value_of (written values.old rest.now p) condition.now))
        (pin_values pins.now inputs.now rest.now) }
{
    let Some((first, rest)) = rest.split_first() else {
        return Trit::from(values.value(condition));
    };
    let name = *first;
    filled!(
        pin_value(pins, inputs, name),
        values,
        name => condition_from(condition, pins, inputs, rest, values)
    )
}

/// The value of a condition where the inputs have these values. `names` are the pins that it names.
pub fn condition_value(condition: &Function, names: &[usize], pins: &[Pin], inputs: &[Trit]) -> Trit
    requires bounded { name_bound condition.now ≤ 96 }
    requires names { names.now ≡ support_of condition.now }
    ensures { result ≡ condition_value pins.now inputs.now condition.now }
{
    let mut values = Values::new();
    condition_from(condition, pins, inputs, names, &mut values)
}

/// Whether a condition is 1, or there is none.
pub fn holds(condition: &Option<Function>, names: &[usize], pins: &[Pin], inputs: &[Trit]) -> bool
    requires bounded { IsBounded condition.now }
    requires names { names.now ≡ condition_names condition.now }
    ensures { result ≡ condition_holds pins.now inputs.now condition.now }
{
    match condition {
        Some(condition) => condition_value(condition, names, pins, inputs) == Trit::One,
        None => true,
    }
}
