//! The next states of an entity.
ghost use Rattle.std.specs.Prelude.{◌≡◌, ◌≤◌, ◌<◌, Some, length, map, slice_get};
ghost use Rattle.cell_machine.specs.Each.{each};
ghost use Rattle.vital_models.specs.LookUps.{lookup_state};
ghost use Rattle.process_runs.specs.EntityRooms.{IsSound, HasRoom};
ghost use Rattle.process_runs.specs.EntitySteps.{next_by};
ghost use Rattle.vital_models.specs.Sound.{IsStateTable, columns_of};
ghost use Rattle.process_runs.specs.TableRows.{rows_of_state};
ghost use Rattle.model_traces.specs.ProcessRun.{columns};
ghost use Rattle.model_traces.specs.PortNumbers.{input_value};

use crate::entity_tables::EntityTables;
use crate::process_rooms::columns_of;
use crate::table_rows::TableRows;
use cell_machine::entry;
use row_masks::{ColumnValues, ValueChange, masked_state, write_news};
use run_parts::{Ports, input_value};
use sqlite_items::{Items, at};
use trit_cubes::Trit;
use vital_models::{VState, keyed_state};

/// The values of the columns of a state's table at two events, one after the other.
#[derive(Clone, Copy)]
struct StateColumns<'a> {
    /// The ports of the entity.
    ports: Ports<'a>,
    /// The violation at the first event.
    was: Trit,
    /// The value that each input had there.
    before: &'a [Trit],
    /// The violation at the second event.
    violation: Trit,
    /// The value that each input has there.
    inputs: &'a [Trit],
    /// The state.
    state: &'a VState,
}

impl<'a> StateColumns<'a> {
    /// The values of the input of the table with this number.
    fn input(&self, number: usize) -> ValueChange
        requires { number < length self.now.state.now.inputs }
        ensures old { slice_get (map (input_value self.now.ports.list.now self.now.before.now) self.now.state.now.inputs) number
            ≡ Some result.old }
        ensures new { slice_get (map (input_value self.now.ports.list.now self.now.inputs.now) self.now.state.now.inputs) number
            ≡ Some result.new }
    {
        let port = self.state.inputs.as_slice()[number];
        ValueChange {
            old: input_value(&self.ports, self.before, port),
            new: input_value(&self.ports, self.inputs, port),
        }
    }

    /// The values at the first event alone.
    fn at_first(&self) -> StateColumns
        ensures olds { columns result.ports.list.now result.was result.before.now result.state.now
            ≡ columns self.now.ports.list.now self.now.was self.now.before.now self.now.state.now }
        ensures news { columns result.ports.list.now result.violation result.inputs.now result.state.now
            ≡ columns self.now.ports.list.now self.now.was self.now.before.now self.now.state.now }
    {
        StateColumns {
            ports: self.ports,
            was: self.was,
            before: self.before,
            violation: self.was,
            inputs: self.before,
            state: self.state,
        }
    }
}

impl<'a> ColumnValues for StateColumns<'a> {
    ghost use Rattle.model_traces.specs.ProcessRun.{columns};

    ghost olds = { λ s. columns s.ports.list.now s.was s.before.now s.state.now };

    ghost news = { λ s. columns s.ports.list.now s.violation s.inputs.now s.state.now };

    fn change(&self, place: usize) -> ValueChange {
        if !self.state.violation {
            return self.input(place);
        }
        if place == 0 {
            return ValueChange {
                old: self.was,
                new: self.violation,
            };
        }
        self.input(place - 1)
    }
}

/// The next state by a table, of whose rows this is known.
fn table_next(
    seen: &StateColumns,
    known: &TableRows,
    state: Trit,
    earlier: &mut Items<Trit>,
    room: &mut Items<Trit>,
) -> Trit
    requires rows { IsStateTable (columns_of seen.now.state.now) seen.now.state.now.table }
    requires known { known.now ≡ rows_of_state seen.now.state.now }
    requires earlier { columns_of seen.now.state.now ≤ length earlier.old }
    requires room { columns_of seen.now.state.now ≤ length room.old }
    ensures next { result ≡ lookup_state seen.now.state.now.table.rows
        (columns seen.now.ports.list.now seen.now.was seen.now.before.now seen.now.state.now)
        (columns seen.now.ports.list.now seen.now.violation seen.now.inputs.now seen.now.state.now) state }
    ensures earlier { length earlier.new ≡ length earlier.old }
    ensures room { length room.new ≡ length room.old }
{
    let table = &seen.state.table;
    if let Some(masks) = at(known.masks.as_slice(), 0) {
        return masked_state(table, masks, state, seen);
    }
    let count = columns_of(seen.state);
    write_news(&seen.at_first(), count, earlier);
    write_news(seen, count, room);
    keyed_state(
        table,
        known.words.as_slice(),
        &earlier.as_slice()[..count],
        &room.as_slice()[..count],
        state,
    )
}

/// Takes all states over an event.
pub(crate) fn step_entity<'x>(
    tables: &'x EntityTables<'x>,
    was: Trit,
    before: &'x [Trit],
    violation: Trit,
    inputs: &'x [Trit],
    states: &mut Items<Trit>,
    earlier: &mut Items<Trit>,
    room: &mut Items<Trit>,
)
    requires sound { IsSound tables.now.model.now }
    requires earlier { HasRoom (length earlier.old) tables.now.model.now }
    requires room { HasRoom (length room.old) tables.now.model.now }
    requires one_each { length states.old ≡ length tables.now.model.now.states }
    ensures stepped { states.new ≡ each (next_by tables.now.model.now was before.now violation inputs.now)
        tables.now.model.now.states states.old }
    ensures len { length states.new ≡ length states.old }
    ensures earlier { length earlier.new ≡ length earlier.old }
    ensures room { length room.new ≡ length room.old }
{
    for i in 0..states.len() {
        let seen = StateColumns {
            ports: tables.ports(),
            was,
            before,
            violation,
            inputs,
            state: entry(&tables.model.states, i),
        };
        let state = states.as_slice()[i];
        let next = table_next(&seen, tables.state_rows(i), state, earlier, room);
        states.set(i, next);
    }
}
