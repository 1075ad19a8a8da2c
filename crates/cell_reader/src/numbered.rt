//! The names of a cell by their numbers in it, and its states over them.
ghost use Rattle.std.specs.Prelude.{◌≡◌, ◌≤◌, IfOk, None, Option, flat_map, length};
ghost use Rattle.cell_machine.specs.Delay.{least};
ghost use Rattle.cell_attributes.specs.Groups.{state_groups as state_groups_of};
ghost use Rattle.cell_attributes.specs.Pins.{pins_of};
ghost use Rattle.cell_attributes.specs.Vocabulary.{vocabulary};
ghost use Rattle.cell_reader.specs.Written.{wide_conditions_of, wide_support_of};
ghost use Rattle.cell_reader.specs.Refusals.{timing_places, middle_reasons, first_refusal, udp_inputs as udp_inputs_of};
ghost use Rattle.cell_attributes.specs.CellLaws.{numbers_of, groups_of};
ghost use Rattle.cell_attributes.specs.Shown.{shown_vocabulary};
ghost use Rattle.cell_functions.specs.Within.{IsWithin};
ghost use Rattle.cell_reader.specs.Parts.{subject_in, AreParts, AreNumbered};

use crate::limits::WrongSupport;
use crate::parts::Parts;
use cell_functions::cell_numbers::cell_numbers;
use cell_functions::output_pins::OutputReader;
use cell_functions::state_groups::state_groups;
use cell_machine::StateGroup;
use cell_machine::least::lesser;
use cell_refusals::least_among;
use sqlite_items::Items;
use std::alloc::{AllocError, Global};

/// The numbers in a cell of the names that its texts name, and its state groups.
#[derive(Drop)]
pub struct Numbered {
    pub numbers: Vec<usize>,
    pub groups: Items<StateGroup>,
}

impl Numbered {
    /// What the outputs of the cell of these parts are read with.
    pub(crate) fn reader<'a, 'b>(
        &'a self,
        alloc: Global,
        parts: &'a Parts<'b>,
    ) -> OutputReader<'a, 'b>
        requires parts { AreParts parts.now }
        requires numbered { AreNumbered parts.now.cell.now self.now }
        requires pins { length (pins_of parts.now.cell.now) ≤ 64 }
        requires groups { length (groups_of parts.now.cell.now) ≤ 16 }
        ensures within { IsWithin result }
        ensures vocabulary { shown_vocabulary result.vocabulary.now ≡ vocabulary parts.now.cell.now }
        ensures pins { result.pins ≡ length (pins_of parts.now.cell.now) }
        ensures groups { result.groups.now ≡ groups_of parts.now.cell.now }
        ensures numbers { result.to.now ≡ numbers_of parts.now.cell.now }
    {
        OutputReader {
            alloc,
            vocabulary: &parts.named.vocabulary,
            groups: self.groups.as_slice(),
            to: &self.numbers,
            pins: parts.said.pins.len(),
        }
    }
}

/// The numbers of the names of a cell, and its state groups.
pub(crate) fn number_names(alloc: Global, parts: &Parts<'_>) -> Result<Numbered, AllocError>
    requires parts { AreParts parts.now }
    requires unmet { first_refusal (middle_reasons (subject_in parts.now) parts.now.cell.now) ≡ None }
    ensures { IfOk result (λ made. AreNumbered parts.now.cell.now made) }
{
    let pins = parts.said.pins.len();
    let numbers = cell_numbers(alloc, &parts.named.states, pins, &parts.named.vocabulary)?;
    let groups = state_groups(
        alloc,
        &numbers,
        &parts.groups.states,
        parts.said.readings.as_slice(),
    )?;
    Ok(Numbered { numbers, groups })
}

/// Where a condition has more than 10 names.
fn wide_conditions(parts: &Parts<'_>) -> Option<usize>
    requires parts { AreParts parts.now }
    requires unmet { first_refusal (middle_reasons (subject_in parts.now) parts.now.cell.now) ≡ None }
    ensures { result ≡ least (timing_places wide_conditions_of (subject_in parts.now) parts.now.cell.now) }
{
    parts.said.timing.least.wide
}

/// Where a state group names more than 8 pins.
fn wide_states(parts: &Parts<'_>) -> Option<usize>
    requires parts { AreParts parts.now }
    requires unmet { first_refusal (middle_reasons (subject_in parts.now) parts.now.cell.now) ≡ None }
    ensures { result ≡ least (flat_map (wide_support_of (vocabulary parts.now.cell.now) (length (pins_of parts.now.cell.now)))
        (state_groups_of parts.now.cell.now)) }
{
    least_among(&WrongSupport::Wide, parts.said.readings.as_slice())
}

/// Where a state group names more than 8 pins, or an output function or a condition more than 10 names.
#[tactic(auto, using(cell_machine::proofs::LeastLemmas::least_append))]
pub(crate) fn udp_inputs(
    alloc: Global,
    parts: &Parts<'_>,
    numbered: &Numbered,
) -> Result<Option<usize>, AllocError>
    requires parts { AreParts parts.now }
    requires numbered { AreNumbered parts.now.cell.now numbered.now }
    requires unmet { first_refusal (middle_reasons (subject_in parts.now) parts.now.cell.now) ≡ None }
    ensures { IfOk result (λ at. at ≡ least (udp_inputs_of (subject_in parts.now) parts.now.cell.now)) }
{
    let reader = numbered.reader(alloc, parts);
    let outputs = reader.wide_outputs(&parts.named.owners)?;
    let states = wide_states(parts);
    Ok(lesser(states, lesser(outputs, wide_conditions(parts))))
}
