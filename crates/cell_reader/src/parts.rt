//! What a cell is made from: its groups, and what their texts and their timing say.
ghost use Rattle.std.specs.Prelude.{◌≡◌, IfOk, length, map, flat_map, IsTrue};
ghost use Rattle.cell_machine.specs.CellRules.{are_distinct};
ghost use Rattle.cell_attributes.specs.Groups.{pin_groups as pin_groups_of, state_groups as state_groups_of};
ghost use Rattle.cell_attributes.specs.Pins.{pin_names, pins_in, owners_in, pins_of as pins_of_cell, owners_of as owners_of_cell};
ghost use Rattle.cell_attributes.specs.States.{states_of as states_of_cell};
ghost use Rattle.cell_attributes.specs.Vocabulary.{vocabulary};
ghost use Rattle.cell_attributes.specs.StateReadings.{state_reading};
ghost use Rattle.cell_attributes.specs.Outputs.{pin_text};
ghost use Rattle.cell_attributes.specs.Shown.{shown_state, shown_vocabulary};
ghost use Rattle.cell_reader.specs.CellTexts.{subject_with};
ghost use Rattle.cell_timings.specs.CellTimings.{IsHeld};
ghost use Rattle.cell_reader.specs.Parts.{AreGroups, AreParts};

use crate::cell_groups::CellGroups;
use bool_functions::Names;
use cell_attributes::held::held_with;
use cell_attributes::outputs::pin_texts;
use cell_attributes::pins::{owners_of, pins_of};
use cell_attributes::state_readings::{StateReading, state_readings};
use cell_attributes::states::{StateName, states_of};
use cell_attributes::texts::Text;
use cell_attributes::vocabulary::{Vocabulary, read_vocabulary};
use cell_machine::Pin;
use cell_timings::{CellTiming, cell_timing};
use liberty_groups::Group;
use liberty_text::Unit;
use sqlite_items::Items;
use std::alloc::{AllocError, Global};
use timing_arcs::Subject;

/// What a cell is made from.
#[derive(Drop)]
pub struct Parts<'a> {
    pub cell: &'a Group,
    /// The time unit of the library.
    pub unit: Option<Unit>,
    pub groups: CellGroups<'a>,
    pub named: Named<'a>,
    pub said: Said,
}

/// The names of the pins of a cell, which are distinct.
pub fn names_of(alloc: Global, pins: &[Pin]) -> Result<Names, AllocError>
    requires { IsTrue (are_distinct (pin_names pins.now)) }
    ensures { IfOk result (λ names. names ≡ pin_names pins.now) }
{
    let mut names = Names::new(alloc);
    for pin in pins {
        names.add(pin.name.as_slice())?;
    }
    Ok(names)
}

/// The pins of a cell, and their timing.
#[derive(Drop)]
struct TimedPins {
    pins: Items<Pin>,
    timing: CellTiming,
}

/// These pins with their timing, where these are the groups that make them.
fn read_timings(
    alloc: Global,
    unit: Option<Unit>,
    pins: Items<Pin>,
    groups: &[&Group],
) -> Result<TimedPins, AllocError>
    requires pins { pins ≡ flat_map pins_in (map (λ group. group.now) groups.now) }
    requires distinct { IsTrue (are_distinct (pin_names (flat_map pins_in (map (λ group. group.now) groups.now)))) }
    ensures pins { IfOk result (λ timed. timed.pins ≡ flat_map pins_in (map (λ group. group.now) groups.now)) }
    ensures timing { IfOk result (λ timed. IsHeld (subject_with unit (flat_map pins_in (map (λ group. group.now) groups.now)))
        (flat_map owners_in (map (λ group. group.now) groups.now)) timed.timing) }
{
    let names = names_of(alloc, pins.as_slice())?;
    let mut subject = Subject {
        names,
        pins,
        place: 0,
        unit,
    };
    let timing = cell_timing(alloc, &mut subject, groups)?;
    Ok(TimedPins {
        pins: subject.pins,
        timing,
    })
}

/// The groups that make the pins of a cell, its states, and the names that its texts may name.
#[derive(Drop)]
pub struct Named<'a> {
    /// For each pin the group that makes it.
    pub owners: Vec<&'a Group>,
    pub states: Vec<StateName<'a>>,
    pub vocabulary: Vocabulary<'a>,
}

/// What is named in a cell, where these are its groups that make pins, and those that hold states.
fn read_names<'a>(
    alloc: Global,
    cell: &'a Group,
    pin_groups: &[&'a Group],
    state_groups: &[&'a Group],
) -> Result<Named<'a>, AllocError>
    requires pins { map (λ group. group.now) pin_groups.now ≡ pin_groups_of cell.now }
    requires states { map (λ group. group.now) state_groups.now ≡ state_groups_of cell.now }
    ensures owners { IfOk result (λ named. map (λ group. group.now) named.owners.items ≡ owners_of_cell cell.now) }
    ensures states { IfOk result (λ named. map shown_state named.states.items ≡ states_of_cell cell.now) }
    ensures vocabulary { IfOk result (λ named. shown_vocabulary named.vocabulary ≡ vocabulary cell.now) }
{
    let _at = cell.at;
    let owners = owners_of(alloc, pin_groups)?;
    let states = states_of(alloc, state_groups)?;
    let vocabulary = read_vocabulary(alloc, &states, pin_groups)?;
    Ok(Named {
        owners,
        states,
        vocabulary,
    })
}

/// The pins of a cell, and what its texts and its timing say.
#[derive(Drop)]
pub struct Said {
    /// The timing of the pins, as far as it decides or is wanted.
    pub timing: CellTiming,
    pub pins: Items<Pin>,
    /// What each of the groups that hold states says.
    pub readings: Items<StateReading>,
    /// The text of each of the pin groups.
    pub texts: Items<Text>,
}

/// The pins that these groups make, and what the texts and the timing of these groups say, in a cell whose texts may name these.
fn read_said(
    alloc: Global,
    unit: Option<Unit>,
    vocabulary: &Vocabulary<'_>,
    pin_groups: &[&Group],
    state_groups: &[&Group],
) -> Result<Said, AllocError>
    requires { IsTrue (are_distinct (pin_names (flat_map pins_in (map (λ group. group.now) pin_groups.now)))) }
    ensures pins { IfOk result (λ said. said.pins ≡ flat_map pins_in (map (λ group. group.now) pin_groups.now)) }
    ensures readings { IfOk result (λ said. said.readings ≡ map
        (state_reading (shown_vocabulary vocabulary.now) (length (flat_map pins_in (map (λ group. group.now) pin_groups.now))))
        (map (λ group. group.now) state_groups.now)) }
    ensures texts { IfOk result (λ said. said.texts ≡ map (pin_text (shown_vocabulary vocabulary.now))
        (map (λ group. group.now) pin_groups.now)) }
    ensures timing { IfOk result (λ said. IsHeld
        (subject_with unit (flat_map pins_in (map (λ group. group.now) pin_groups.now)))
        (flat_map owners_in (map (λ group. group.now) pin_groups.now)) said.timing) }
{
    let pins = pins_of(alloc, pin_groups)?;
    let readings = state_readings(alloc, vocabulary, pins.len(), state_groups)?;
    let texts = pin_texts(alloc, vocabulary, pin_groups)?;
    let timed = read_timings(alloc, unit, pins, pin_groups)?;
    Ok(Said {
        pins: timed.pins,
        timing: timed.timing,
        readings,
        texts,
    })
}

/// What a cell with these groups is made from.
pub(crate) fn read_parts<'a>(
    alloc: Global,
    cell: &'a Group,
    unit: Option<Unit>,
    groups: CellGroups<'a>,
) -> Result<Parts<'a>, AllocError>
    requires groups { AreGroups cell.now groups }
    requires distinct { IsTrue (are_distinct (pin_names (pins_of_cell cell.now))) }
    ensures parts { IfOk result (λ parts. AreParts parts) }
    ensures cell { IfOk result (λ parts. parts.cell.now ≡ cell.now) }
    ensures unit { IfOk result (λ parts. parts.unit ≡ unit) }
{
    let named = read_names(alloc, cell, &groups.pins, &groups.states);
    let (groups, named) = held_with(groups, named)?;
    let said = read_said(alloc, unit, &named.vocabulary, &groups.pins, &groups.states);
    let ((groups, named), said) = held_with((groups, named), said)?;
    Ok(Parts {
        cell,
        unit,
        groups,
        named,
        said,
    })
}

impl Parts<'_> {
    /// The pins and their timing. All else is let go.
    pub(crate) fn pins_and_timing(self) -> (Items<Pin>, CellTiming)
        ensures pins { result.0 ≡ self.entry.said.pins }
        ensures timing { result.1 ≡ self.entry.said.timing }
    {
        let said = self.said;
        (said.pins, said.timing)
    }
}
