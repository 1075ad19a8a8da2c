//! What the groups that hold states say.
ghost use Rattle.std.specs.Prelude.{◌≡◌, IfOk, map};
ghost use Rattle.cell_attributes.specs.StateReadings.{is_ff as is_ff_of, data_name as data_name_of};
ghost use Rattle.cell_attributes.specs.StateReadings.{control_name as control_name_of, lacks_attribute as lacks_attribute_of};
ghost use Rattle.cell_attributes.specs.StateReadings.{group_malformed as group_malformed_of, place_if as place_if_of};
ghost use Rattle.cell_attributes.specs.StateReadings.{holds_state as holds_state_of, reading_of_texts, reading_of_table};
ghost use Rattle.cell_attributes.specs.StateReadings.{state_reading};
ghost use Rattle.cell_attributes.specs.Shown.{shown_vocabulary};

use crate::group_texts::{DrivingNames, group_texts};
use crate::groups::{is_called, is_missing};
use crate::held::{both_made, held_with};
use crate::states::{arguments_of, is_table, states_in};
use crate::supports::{pins_among, support_of};
use crate::table_inputs::table_inputs;
use crate::table_texts::{no_table, table_with};
use crate::texts::Text;
use crate::vocabulary::Vocabulary;
use cell_machine::Shared;
use liberty_groups::{Group, last_attribute};
use sqlite_items::Items;
use statetables::StateTable;
use std::alloc::{AllocError, Global};

/// What a group that holds states says.
#[derive(Drop)]
pub struct StateReading {
    /// The offset of the group.
    pub at: usize,
    /// Whether the group holds a state. A table without nodes holds none.
    pub holds: bool,
    /// That offset, where the group lacks an attribute that it needs or its arguments are not two.
    pub malformed: Option<usize>,
    /// That offset, where an input of a table names nothing.
    pub unknown: Option<usize>,
    /// That offset, where an input of a table is a variable or node.
    pub coupled: Option<usize>,
    /// `next_state` or `data_in`. Of a table what is wrong with its text.
    pub data_text: Text,
    /// `clocked_on` or `enable`.
    pub control: Text,
    pub clear: Text,
    pub preset: Text,
    /// The numbers of the inputs of a table.
    pub inputs: Items<usize>,
    /// The table, without rows where the group is none or its text is no table.
    pub table: Shared<StateTable>,
    /// The numbers of the input pins that the texts name, ascending.
    pub support: Items<usize>,
}

/// Whether the group is `ff`, and no `latch`.
pub fn is_ff(group: &Group) -> bool
    ensures { result ≡ is_ff_of group.now }
{
    is_called(group, b"ff")
}

/// The names of the attributes that drive the state of an `ff` or of a `latch`.
fn driving_names(group: &Group) -> DrivingNames
    ensures data { result.data.now ≡ data_name_of group.now }
    ensures control { result.control.now ≡ control_name_of group.now }
{
    if is_ff(group) {
        DrivingNames {
            data: b"next_state",
            control: b"clocked_on",
        }
    } else {
        DrivingNames {
            data: b"data_in",
            control: b"enable",
        }
    }
}

/// Whether the group lacks an attribute that it needs.
fn lacks_attribute(group: &Group) -> bool
    ensures { result ≡ lacks_attribute_of group.now }
{
    if is_table(group) {
        return is_missing(group, b"table");
    }
    let names = driving_names(group);
    let no_data = is_missing(group, names.data);
    let no_control = is_missing(group, names.control);
    if is_ff(group) {
        no_data || no_control
    } else {
        no_data != no_control
    }
}

/// Whether the group holds a state.
fn holds_state(alloc: Global, group: &Group) -> Result<bool, AllocError>
    ensures { IfOk result (λ holds. holds ≡ holds_state_of group.now) }
{
    let states = states_in(alloc, group)?;
    Ok(!states.is_empty())
}

/// The offset, where the fault is here.
fn place_if(here: bool, at: usize) -> Option<usize>
    ensures { result ≡ place_if_of here at }
{
    if here { Some(at) } else { None }
}

/// Where the group lacks an attribute that it needs, or its arguments are not two.
fn group_malformed(group: &Group) -> Option<usize>
    ensures { result ≡ group_malformed_of group.now }
{
    place_if(
        arguments_of(group).is_none() || lacks_attribute(group),
        group.at,
    )
}

/// What the groups of a cell with so many pins are read with.
#[derive(Clone, Copy)]
struct Readings<'a, 'b> {
    alloc: Global,
    vocabulary: &'a Vocabulary<'b>,
    pins: usize,
}

impl Readings<'_, '_> {
    /// What an `ff` or `latch` says.
    fn of_texts(&self, group: &Group) -> Result<StateReading, AllocError>
        ensures { IfOk result (λ reading. reading ≡ reading_of_texts (shown_vocabulary self.now.vocabulary.now) self.now.pins
            group.now) }
    {
        let holds = holds_state(self.alloc, group)?;
        let texts = group_texts(self.alloc, self.vocabulary, group, driving_names(group))?;
        let support = support_of(
            self.alloc,
            self.pins,
            &texts.data_text,
            &texts.control,
            &texts.clear,
            &texts.preset,
        );
        let (texts, made) = held_with(texts, both_made(support, no_table(self.alloc)))?;
        let (support, table) = made;
        Ok(StateReading {
            at: group.at,
            holds,
            malformed: group_malformed(group),
            unknown: None,
            coupled: None,
            data_text: texts.data_text,
            control: texts.control,
            clear: texts.clear,
            preset: texts.preset,
            inputs: Items::new(self.alloc),
            table,
            support,
        })
    }

    /// What a `statetable` says.
    fn of_table(&self, group: &Group) -> Result<StateReading, AllocError>
        ensures { IfOk result (λ reading. reading ≡ reading_of_table (shown_vocabulary self.now.vocabulary.now) self.now.pins
            group.now) }
    {
        let holds = holds_state(self.alloc, group)?;
        let arguments = arguments_of(group);
        let inputs = table_inputs(self.alloc, self.vocabulary, arguments)?;
        let support = pins_among(self.alloc, self.pins, &inputs.numbers);
        let read = table_with(self.alloc, arguments, last_attribute(group, b"table"));
        let (inputs, made) = held_with(inputs, both_made(support, read))?;
        let (support, read) = made;
        Ok(StateReading {
            at: group.at,
            holds,
            malformed: group_malformed(group),
            unknown: place_if(inputs.unknown, group.at),
            coupled: place_if(inputs.coupled, group.at),
            data_text: read.text,
            control: Text::Absent,
            clear: Text::Absent,
            preset: Text::Absent,
            inputs: Items::from_vec(inputs.numbers),
            table: read.table,
            support,
        })
    }

    /// What a group that holds states says.
    fn of_group(&self, group: &Group) -> Result<StateReading, AllocError>
        ensures { IfOk result (λ reading. reading ≡ state_reading (shown_vocabulary self.now.vocabulary.now) self.now.pins
            group.now) }
    {
        if is_table(group) {
            self.of_table(group)
        } else {
            self.of_texts(group)
        }
    }
}

/// What each of the groups says.
pub fn state_readings(
    alloc: Global,
    vocabulary: &Vocabulary<'_>,
    pins: usize,
    groups: &[&Group],
) -> Result<Items<StateReading>, AllocError>
    ensures { IfOk result (λ readings. readings ≡ map (state_reading (shown_vocabulary vocabulary.now) pins)
        (map (λ group. group.now) groups.now)) }
{
    let with = Readings {
        alloc,
        vocabulary,
        pins,
    };
    let mut readings = Items::new(alloc);
    for group in groups {
        readings.push(with.of_group(group)?)?;
    }
    Ok(readings)
}
