//! The comparison of the values of conditions and outputs.
ghost use Rattle.std.specs.Prelude.{◌≡◌, ◌<◌, ◌≤◌, Bool, List, [], ◌∷◌, length, map, Some, IsTrue};
ghost use Rattle.trit_cubes.specs.declared.trits.Trit.{Trit as TritOf};
ghost use Rattle.trit_cubes.specs.{Resolution.res, Sets.AreValuesOf, Prime.cubes_of};
ghost use Rattle.bool_functions.specs.{Tree.name_bound, Support.support_of};
ghost use Rattle.cell_machine.specs.{CellData.data_of, CellTrace.sources_at};
ghost use Rattle.specify_blocks.specs.Sound.{IsSound};
ghost use Rattle.module_terminals.specs.Feeding.{gating, feeds_condition, feeds_gating, feeds_output};
ghost use Rattle.module_tables.specs.Tables.{value_compared, conditions_compared, outputs_compared, first_difference};
ghost use Rattle.module_tables.specs.LookUps.{Drives};

use crate::cell_values::{condition_values, output_values};
use crate::differences::{AuditPart, Difference};
use crate::lists::{cube_of, list_count, list_numbered};
use crate::net_levels::NetLevels;
use crate::resolved::tabled;
use bool_functions::Function;
use cell_machine::Cell;
use module_terminals::condition_wires::ConditionWire;
use module_terminals::supports::{MOST_NAMES, support_of};
use module_terminals::terminals::{output_net, output_nets, pin_nets};
use specify_blocks::{VModule, VNet};
use trit_cubes::Trit;

/// The arguments at which two values without a state are compared, where these are not the same.
fn compared(
    part: AuditPart,
    number: usize,
    values: &[Trit],
    of_cell: Trit,
    of_model: Trit,
) -> Option<Difference>
    requires { length values.now ≤ 10 }
    ensures { result ≡ first_difference (value_compared part number (λ _. of_cell) (λ _. of_model) values.now ∷ []) }
{
    let difference = Difference {
        part,
        number,
        places: cube_of(values),
        changed: None,
        old: None,
        state: None,
        notifier: None,
        of_cell,
        of_model,
    };
    difference.found()
}

/// The first list of values of so many places at which a function of points, by its values at all points, is not what drives a
/// net, as one of the part with this number.
fn first_unlike(
    part: AuditPart,
    number: usize,
    places: usize,
    table: &[Trit],
    levels: &NetLevels<'_>,
) -> Option<Difference>
    requires few { places ≤ 10 }
    ensures { (f : List Bool → TritOf) (g : List TritOf → TritOf) → AreValuesOf places f table.now → Drives levels.now g
        → result ≡ first_difference (map (value_compared part number (res f) g) (cubes_of places)) }
{
    let count = list_count(places);
    for k in 0..count {
        let list = list_numbered(places, k, count);
        let values = list.as_slice();
        let of_cell = tabled(table, values);
        let of_model = levels.value(values);
        if let Some(found) = compared(part, number, values, of_cell, of_model) {
            return Some(found);
        }
    }
    None
}

/// The first difference of a condition and of the wire that stands for it, as one of the part with this number.
fn of_wire(
    cell: &Cell,
    model: &VModule,
    part: AuditPart,
    number: usize,
    condition: &Function,
    wire: usize,
) -> Option<Difference>
    requires sound { IsSound model.now }
    requires bounded { name_bound condition.now ≤ 96 }
    requires few { length (support_of condition.now) ≤ 10 }
    requires fed { IsTrue (feeds_condition (data_of cell.now) model.now (record { condition = condition.now; wire = wire })) }
    ensures { result ≡ first_difference
        (conditions_compared (data_of cell.now) model.now part number
        (Some (record { condition = condition.now; wire = wire }))) }
{
    let names = support_of(condition, MOST_NAMES);
    let places = names.as_slice();
    let count = places.len();
    let pins = cell.pins.as_slice();
    let nets = pin_nets(pins, places);
    let fed_by = nets.as_slice();
    let table = condition_values(condition, places);
    let values = table.as_slice();
    let levels = NetLevels::of(model, fed_by, VNet::Wire(wire));
    first_unlike(part, number, count, values, &levels)
}

/// The first difference of a condition that may be absent and of the wire that stands for it, as one of the part with this
/// number.
pub(crate) fn of_condition(
    cell: &Cell,
    model: &VModule,
    part: AuditPart,
    number: usize,
    of: ConditionWire<'_>,
) -> Option<Difference>
    requires sound { IsSound model.now }
    requires fed { IsTrue (feeds_gating (data_of cell.now) model.now (gating of.condition.now of.wire)) }
    ensures { result ≡ first_difference
        (conditions_compared (data_of cell.now) model.now part number (gating of.entry.condition.now of.entry.wire)) }
{
    let (Some(condition), Some(wire)) = (of.condition, of.wire) else {
        return None;
    };
    of_wire(cell, model, part, number, condition, wire)
}

/// How many pins and states an output depends on.
fn source_count(cell: &Cell, output: usize) -> usize
    requires { output < length cell.now.outputs }
    ensures value { result ≡ length (sources_at (data_of cell.now) output) }
    ensures few { result ≤ 10 }
{
    cell.output_pin(output).support.len()
}

/// The first difference of an output.
pub(crate) fn of_output(cell: &Cell, model: &VModule, output: usize) -> Option<Difference>
    requires sound { IsSound model.now }
    requires inside { output < length cell.now.outputs }
    requires fed { IsTrue (feeds_output (data_of cell.now) model.now output) }
    ensures { result ≡ first_difference (outputs_compared (data_of cell.now) model.now output) }
{
    let places = source_count(cell, output);
    let nets = output_nets(cell, model, output);
    let fed_by = nets.as_slice();
    let table = output_values(cell, output);
    let values = table.as_slice();
    let net = output_net(cell, output);
    let levels = NetLevels::of(model, fed_by, net);
    first_unlike(AuditPart::Output, output + 1, places, values, &levels)
}
