//! The limits of a cell. Each answers the least offset at which one is passed.
ghost use Rattle.std.specs.Prelude.{◌≡◌, ◌++◌, OnOk, IfOk, map, flat_map};
ghost use Rattle.cell_machine.specs.Delay.{least};
ghost use Rattle.cell_attributes.specs.Declarations.{bad_cell_name as bad_cell_name_of, known_cell as known_cell_of};
ghost use Rattle.cell_attributes.specs.Limits.{first_past as first_past_of, place_of_group, place_of_state as place_of_state_in};
ghost use Rattle.cell_attributes.specs.Limits.{state_at};
ghost use Rattle.cell_attributes.specs.Shown.{shown_state};
ghost use Rattle.cell_reader.specs.Told.{wrong_support_in};

use bool_functions::Names;
use cell_attributes::declarations::is_name;
use cell_attributes::groups::cell_name;
use cell_attributes::limits::MOST_STATE_PINS;
use cell_attributes::state_readings::StateReading;
use cell_attributes::states::{StateName, states_in};
use cell_refusals::Scan;
use liberty_groups::Group;
use std::alloc::{AllocError, Global};

/// The offset of the first that passes a limit of so many, where these are the offsets of all.
pub(crate) fn first_past(limit: usize, offsets: &[usize]) -> Option<usize>
    ensures { result ≡ least (first_past_of limit offsets.now) }
{
    match offsets.get(limit) {
        None => None,
        Some(at) => Some(*at),
    }
}

/// The offset of the first of some groups that passes a limit of so many.
pub(crate) fn first_group_past(limit: usize, groups: &[&Group]) -> Option<usize>
    ensures { result ≡ least (first_past_of limit (map place_of_group (map (λ group. group.now) groups.now))) }
{
    match groups.get(limit) {
        None => None,
        Some(group) => Some(group.at),
    }
}

/// Where the name of a cell is none.
pub(crate) fn bad_cell_name(cell: &Group) -> Option<usize>
    ensures { result ≡ least (bad_cell_name_of cell.now) }
{
    if is_name(cell_name(cell)) {
        None
    } else {
        Some(cell.at)
    }
}

/// Where an earlier cell of the library has the name of a cell.
pub(crate) fn known_cell(earlier: &Names, cell: &Group) -> Option<usize>
    ensures { result ≡ least (known_cell_of earlier.now cell.now) }
{
    match earlier.number(cell_name(cell)) {
        None => None,
        Some(_) => Some(cell.at),
    }
}

/// The offset of the group of a state.
fn place_of_state(group: &Group, _state: StateName<'_>) -> usize
    ensures { result ≡ place_of_state_in group.now (shown_state _state.entry) }
{
    group.at
}

/// Adds the offset of a group for each of its states.
fn add_states(alloc: Global, offsets: &mut Vec<usize>, group: &Group) -> Result<(), AllocError>
    ensures { OnOk result (offsets.new.items ≡ offsets.old.items ++ state_at group.now) }
{
    let states = states_in(alloc, group)?;
    for state in &states {
        offsets.push(place_of_state(group, *state))?;
    }
    Ok(())
}

/// For each state the offset of its group.
pub(crate) fn state_offsets(alloc: Global, groups: &[&Group]) -> Result<Vec<usize>, AllocError>
    ensures { IfOk result (λ offsets. offsets.items ≡ flat_map state_at (map (λ group. group.now) groups.now)) }
{
    let mut offsets = Vec::new(alloc);
    for group in groups {
        add_states(alloc, &mut offsets, group)?;
    }
    Ok(offsets)
}

/// How many input pins a group that holds a state may not name.
#[derive(Clone, Copy)]
pub(crate) enum WrongSupport {
    /// None.
    Empty,
    /// More than 8.
    Wide,
}

impl Scan<StateReading> for WrongSupport {
    ghost places = { wrong_support_in };

    #[tactic(auto, unfolding(cell_attributes::specs::Limits::no_support_in, cell_attributes::specs::Limits::wide_support_in))]
    fn least_in(&self, reading: &StateReading) -> Option<usize> {
        let pins = reading.support.len();
        let is_wrong = match self {
            WrongSupport::Empty => pins == 0,
            WrongSupport::Wide => MOST_STATE_PINS < pins,
        };
        if reading.holds && is_wrong {
            Some(reading.at)
        } else {
            None
        }
    }
}
