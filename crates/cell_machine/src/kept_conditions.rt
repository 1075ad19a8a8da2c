//! The values of the conditions of arcs, kept as long as no input changes that they name.
ghost use Rattle.std.specs.Prelude.{◌≡◌, ◌<◌, length, slice_get, Some};
ghost use Rattle.cell_machine.specs.declared.arcs.Arc.{Arc as ArcOf};
ghost use Rattle.cell_machine.specs.Places.{AreBelow};
ghost use Rattle.cell_machine.specs.Values.{IsBounded};
ghost use Rattle.cell_machine.specs.CellData.{data_of};
ghost use Rattle.cell_machine.specs.CellTrace.{condition_names, arc_names};
ghost use Rattle.cell_machine.specs.KeptConditions.{arc_condition as arc_condition_of, AreConditions, AreForgotten};

use crate::cells::Cell;
use crate::evaluation::condition_value;
use crate::pins::Pin;
use bool_functions::Function;
use sqlite_items::Items;
use trit_cubes::Trit;

/// The arcs of a cell as the values of its inputs leave them.
#[derive(Clone, Copy)]
pub struct InputArcs<'a> {
    /// The cell.
    pub cell: &'a Cell,
    /// For each arc the pins that its condition names.
    pub names: &'a [Items<usize>],
    /// The values of the inputs.
    pub inputs: &'a [Trit],
}

/// The value of the condition of the arc with this number, 0 where it has none. It is made where none is kept, and then kept.
pub fn kept_condition(arcs: &InputArcs, i: usize, kept: &mut Items<Option<Trit>>) -> Trit
    requires names { arcs.now.names.now ≡ arc_names (data_of arcs.now.cell.now) }
    requires inside { i < length arcs.now.cell.now.arcs }
    requires kept { AreConditions arcs.now.cell.now.pins arcs.now.inputs.now arcs.now.cell.now.arcs kept.old }
    ensures value { (arc : ArcOf) → slice_get arcs.now.cell.now.arcs i ≡ Some arc
        → result ≡ arc_condition_of arcs.now.cell.now.pins arcs.now.inputs.now arc.condition }
    ensures kept { AreConditions arcs.now.cell.now.pins arcs.now.inputs.now arcs.now.cell.now.arcs kept.new }
{
    if let Some(value) = kept.as_slice()[i] {
        return value;
    }
    let condition = &arcs.cell.arc(i).condition;
    let names = arcs.names[i].as_slice();
    let value = arc_condition(condition, names, arcs.cell.pins.as_slice(), arcs.inputs);
    kept.set(i, Some(value));
    value
}

/// The value of a condition, 0 where there is none.
fn arc_condition(
    condition: &Option<Function>,
    names: &[usize],
    pins: &[Pin],
    inputs: &[Trit],
) -> Trit
    requires bounded { IsBounded condition.now }
    requires names { names.now ≡ condition_names condition.now }
    ensures { result ≡ arc_condition_of pins.now inputs.now condition.now }
{
    match condition {
        Some(condition) => condition_value(condition, names, pins, inputs),
        None => Trit::Zero,
    }
}

/// Forgets what is kept of the entries with these numbers.
pub fn forget<T: Copy>(places: &[usize], kept: &mut Items<Option<T>>)
    requires { AreBelow (length kept.old) places.now }
    ensures { AreForgotten places.now kept.old kept.new }
{
    for i in 0..places.len() {
        kept.set(places[i], None);
    }
}
