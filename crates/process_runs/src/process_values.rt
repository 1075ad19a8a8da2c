//! The values of an entity's conditions and outputs, of the values of its inputs and its states. `room` has place for the columns
//! of any table.
ghost use Rattle.std.specs.Prelude.{◌≡◌, ◌<◌, ◌≤◌, length, map, All};
ghost use Rattle.vital_models.specs.LookUps.{lookup_truth};
ghost use Rattle.process_runs.specs.EntityRooms.{source_count};
ghost use Rattle.process_runs.specs.TableRows.{truth_rows, rows_of_truth, rows_of_value};
ghost use Rattle.vital_models.specs.Sound.{IsValue};
ghost use Rattle.model_traces.specs.PortNumbers.{input_value};
ghost use Rattle.model_traces.specs.ProcessValues.{truth_value, source_value, output_value};

use crate::entity_values::EntityValues;
use crate::table_rows::TableRows;
use cell_machine::{Source, numbered_value};
use row_masks::{ColumnValues, ValueChange, masked_truth, write_news};
use run_parts::{Ports, input_value};
use sqlite_items::{Items, at};
use trit_cubes::Trit;
use vital_models::{OutValue, TruthTable, VTruth, keyed_truth};

/// The values of the columns of a truth table of input ports.
#[derive(Clone, Copy)]
struct InputColumns<'a> {
    /// The ports of the entity.
    ports: Ports<'a>,
    /// The value of each input.
    inputs: &'a [Trit],
    /// The port of each column.
    nets: &'a [usize],
}

impl<'a> ColumnValues for InputColumns<'a> {
    ghost use Rattle.std.specs.Prelude.{map};
    ghost use Rattle.model_traces.specs.PortNumbers.{input_value};

    ghost olds = { λ s. map (input_value s.ports.list.now s.inputs.now) s.nets.now };

    ghost news = { λ s. map (input_value s.ports.list.now s.inputs.now) s.nets.now };

    fn change(&self, place: usize) -> ValueChange {
        let value = input_value(&self.ports, self.inputs, self.nets[place]);
        ValueChange {
            old: value,
            new: value,
        }
    }
}

/// What a truth table of input ports gives, of whose rows this is known.
pub(crate) fn truth_value(
    ports: &Ports,
    inputs: &[Trit],
    truth: &VTruth,
    known: &TableRows,
    room: &mut Items<Trit>,
) -> Trit
    requires rows { All (λ row. length row.inputs ≡ length truth.now.inputs) truth.now.table.rows }
    requires known { known.now ≡ rows_of_truth truth.now }
    requires room { length truth.now.inputs ≤ length room.old }
    ensures value { result ≡ truth_value ports.now.list.now inputs.now truth.now }
    ensures len { length room.new ≡ length room.old }
{
    let columns = InputColumns {
        ports: *ports,
        inputs,
        nets: truth.inputs.as_slice(),
    };
    looked_up(&truth.table, &columns, truth.inputs.len(), known, room)
}

/// What a truth table gives, whose columns have these values and of whose rows this is known.
fn looked_up<C: ColumnValues>(
    table: &TruthTable,
    values: &C,
    columns: usize,
    known: &TableRows,
    room: &mut Items<Trit>,
) -> Trit
    requires rows { All (λ row. length row.inputs ≡ columns) table.now.rows }
    requires known { known.now ≡ truth_rows columns table.now.rows }
    requires still { C.olds values.now ≡ C.news values.now }
    requires news { length (C.news values.now) ≡ columns }
    requires room { columns ≤ length room.old }
    ensures value { result ≡ lookup_truth table.now.rows (C.news values.now) }
    ensures len { length room.new ≡ length room.old }
{
    if let Some(masks) = at(known.masks.as_slice(), 0) {
        return masked_truth(table, masks, values);
    }
    write_news(values, columns, room);
    keyed_truth(table, known.words.as_slice(), &room.as_slice()[..columns])
}

/// The value of an input port, or of a state.
fn source_value(ports: &Ports, inputs: &[Trit], states: &[Trit], source: Source) -> Trit
    ensures { result ≡ source_value ports.now.list.now inputs.now states.now source }
{
    match source {
        Source::Pin(port) => input_value(ports, inputs, port),
        Source::State(state) => numbered_value(states, state),
    }
}

/// The values of the columns of an output's table.
#[derive(Clone, Copy)]
struct SourceColumns<'a> {
    /// The ports of the entity.
    ports: Ports<'a>,
    /// The value of each input.
    inputs: &'a [Trit],
    /// Each state.
    states: &'a [Trit],
    /// The port or the state of each column.
    sources: &'a [Source],
}

impl<'a> ColumnValues for SourceColumns<'a> {
    ghost use Rattle.std.specs.Prelude.{map};
    ghost use Rattle.model_traces.specs.ProcessValues.{source_value};

    ghost olds = { λ s. map (source_value s.ports.list.now s.inputs.now s.states.now) s.sources.now };

    ghost news = { λ s. map (source_value s.ports.list.now s.inputs.now s.states.now) s.sources.now };

    fn change(&self, place: usize) -> ValueChange {
        let value = source_value(&self.ports, self.inputs, self.states, self.sources[place]);
        ValueChange {
            old: value,
            new: value,
        }
    }
}

/// What an output's table gives, of whose rows this is known.
fn table_value<'x>(
    values: &'x EntityValues<'x>,
    table: &TruthTable,
    sources: &'x [Source],
    known: &TableRows,
    room: &mut Items<Trit>,
) -> Trit
    requires rows { All (λ row. length row.inputs ≡ length sources.now) table.now.rows }
    requires known { known.now ≡ truth_rows (length sources.now) table.now.rows }
    requires room { length sources.now ≤ length room.old }
    ensures value { result ≡ lookup_truth table.now.rows
        (map (source_value values.now.tables.model.now.ports values.now.inputs.now values.now.states.now) sources.now) }
    ensures len { length room.new ≡ length room.old }
{
    let columns = SourceColumns {
        ports: values.tables.ports(),
        inputs: values.inputs,
        states: values.states,
        sources,
    };
    looked_up(table, &columns, sources.len(), known, room)
}

/// The value of an output, of whose table's rows this is known.
pub(crate) fn output_value(
    values: &EntityValues,
    value: &OutValue,
    known: &TableRows,
    room: &mut Items<Trit>,
) -> Trit
    requires value { IsValue values.now.tables.model.now value.now }
    requires known { known.now ≡ rows_of_value value.now }
    requires room { source_count value.now ≤ length room.old }
    ensures value { result ≡ output_value values.now.tables.model.now values.now.inputs.now values.now.states.now value.now }
    ensures len { length room.new ≡ length room.old }
{
    match value {
        OutValue::Constant(one) => Trit::from(*one),
        OutValue::Table { table, inputs } => {
            table_value(values, table, inputs.as_slice(), known, room)
        }
    }
}
