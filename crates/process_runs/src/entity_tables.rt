//! An entity with what is known of it.
ghost use Rattle.std.specs.Prelude.{◌≡◌, ◌<◌, [], slice_get, unwrap_or};
ghost use Rattle.model_traces.specs.PortNumbers.{input_count};
ghost use Rattle.process_runs.specs.EntityIndexed.{IsEntityIndex};
ghost use Rattle.process_runs.specs.KeptConditions.{fed_places};
ghost use Rattle.process_runs.specs.TableRows.{rows_of_state, rows_of_truth, rows_of_value};

use crate::entity_index::EntityIndex;
use crate::entity_rows::rows_at;
use crate::table_rows::TableRows;
use run_parts::Ports;
use sqlite_items::{Items, at};
use vital_models::VEntity;

/// An entity with what is known of it: the rows of its tables and the numbers of its ports.
#[derive(Clone, Copy)]
pub struct EntityTables<'a> {
    /// The entity.
    pub model: &'a VEntity,
    /// What is known of it.
    pub index: &'a EntityIndex,
    ghost indexed: { IsEntityIndex model.now index.now },
}

/// The places with this number, none where there is no such list.
fn places_at(all: &[Items<usize>], i: usize) -> &[usize]
    ensures { result.now ≡ unwrap_or (slice_get all.now i) [] }
{
    match at(all, i) {
        Some(places) => places.as_slice(),
        None => &[],
    }
}

impl<'a> EntityTables<'a> {
    ghost use Rattle.std.specs.Prelude.{Some, length};
    ghost use Rattle.vital_models.specs.declared.model.VState.{VState};
    ghost use Rattle.vital_models.specs.declared.model.VTruth.{VTruth};
    ghost use Rattle.vital_models.specs.declared.model.VOutput.{VOutput};

    /// The places of the conditions that an input feeds, in order.
    pub(crate) fn fed_by(&self, input: usize) -> &[usize]
        requires { input < input_count self.now.model.now.ports }
        ensures { result.now ≡ fed_places self.now.model.now.ports self.now.model.now.conditions input }
    {
        places_at(self.index.fed.as_slice(), input)
    }

    /// What is known of the rows of the table of the state with this number.
    pub(crate) fn state_rows(&self, i: usize) -> &TableRows
        requires { i < length self.now.model.now.states }
        ensures { (state : VState) → slice_get self.now.model.now.states i ≡ Some state → result.now ≡ rows_of_state state }
    {
        rows_at(&self.index.rows.states, &self.model.states, i)
    }

    /// The same of the condition with this number.
    pub(crate) fn condition_rows(&self, i: usize) -> &TableRows
        requires { i < length self.now.model.now.conditions }
        ensures { (truth : VTruth) → slice_get self.now.model.now.conditions i ≡ Some truth → result.now ≡ rows_of_truth truth }
    {
        rows_at(&self.index.rows.conditions, &self.model.conditions, i)
    }

    /// The same of the output with this number.
    pub(crate) fn output_rows(&self, i: usize) -> &TableRows
        requires { i < length self.now.model.now.outputs }
        ensures { (output : VOutput) → slice_get self.now.model.now.outputs i ≡ Some output
            → result.now ≡ rows_of_value output.value }
    {
        rows_at(&self.index.rows.outputs, &self.model.outputs, i)
    }

    /// The ports of the entity.
    pub(crate) fn ports(&self) -> Ports
        ensures { result.list.now ≡ self.now.model.now.ports }
    {
        Ports {
            list: self.model.ports.as_slice(),
            numbers: self.index.numbers.as_slice(),
        }
    }
}
