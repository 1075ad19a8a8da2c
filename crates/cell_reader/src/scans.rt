//! The refusals that are seen without the names of a cell, in each of its groups.
ghost use Rattle.std.specs.Prelude.{◌≡◌, ◌++◌};
ghost use Rattle.cell_machine.specs.Delay.{least};
ghost use Rattle.cell_attributes.specs.Groups.{offsets_of};
ghost use Rattle.cell_attributes.specs.Scans.{direction_in as direction_in_of, three_state_in as three_state_in_of};
ghost use Rattle.cell_attributes.specs.Scans.{bank_in as bank_in_of, left_out_in as left_out_in_of};
ghost use Rattle.cell_attributes.specs.Scans.{first_both_in as first_both_in_of, second_both_in as second_both_in_of};
ghost use Rattle.cell_attributes.specs.Scans.{clear_preset_in as clear_preset_in_of, no_function_in as no_function_in_of};

use cell_attributes::groups::{is_bank, is_called, is_missing};
use cell_attributes::pins::{direction_named, direction_of};
use cell_attributes::states::both_named;
use cell_machine::least::lesser;
use cell_machine::{Both, Direction};
use cell_refusals::Scan;
use liberty_groups::{Group, last_attribute, simple_attribute};

/// The least offset of the simple attributes of this name in a group, none where it has none. Offsets count bytes from 0.
#[tactic(auto, using(cell_machine::proofs::LeastLemmas::lesser_assoc, cell_machine::proofs::LeastLemmas::lesser_none))]
pub fn first_offset(group: &Group, name: &[u8]) -> Option<usize>
    ensures { result ≡ least (offsets_of name.now group.now) }
{
    let mut found = None;
    for item in group.items.as_slice() {
        if let Some(attribute) = simple_attribute(item, name) {
            found = lesser(found, Some(attribute.at));
        }
    }
    found
}

/// Where the direction of a pin group is absent or none of the three.
pub(crate) struct BadDirections;

impl Scan<Group> for BadDirections {
    ghost places = { λ _. direction_in_of };

    #[tactic(auto, unfolding(cell_attributes::specs::Scans::direction_in))]
    fn least_in(&self, pin: &Group) -> Option<usize> {
        match last_attribute(pin, b"direction") {
            None => Some(pin.at),
            Some(attribute) => match direction_named(attribute.text) {
                None => Some(attribute.at),
                Some(_) => None,
            },
        }
    }
}

/// Where the pins of a group have `three_state`.
pub(crate) struct ThreeStates;

impl Scan<Group> for ThreeStates {
    ghost places = { λ _. three_state_in_of };

    #[tactic(auto, unfolding(cell_attributes::specs::Scans::three_state_in))]
    fn least_in(&self, pin: &Group) -> Option<usize> {
        first_offset(pin, b"three_state")
    }
}

/// Where a group stands for several pins or states at once.
pub(crate) struct BankGroups;

impl Scan<Group> for BankGroups {
    ghost places = { λ _. bank_in_of };

    #[tactic(auto, unfolding(cell_attributes::specs::Scans::bank_in))]
    fn least_in(&self, group: &Group) -> Option<usize> {
        if is_bank(group) { Some(group.at) } else { None }
    }
}

/// Where a group has an attribute whose states are left out.
pub(crate) struct LeftOutStates;

impl Scan<Group> for LeftOutStates {
    ghost places = { λ _. left_out_in_of };

    #[tactic(auto, unfolding(cell_attributes::specs::Scans::left_out_in), using(cell_machine::proofs::LeastLemmas::least_append))]
    fn least_in(&self, group: &Group) -> Option<usize> {
        let clocked = first_offset(group, b"clocked_on_also");
        let enable = first_offset(group, b"enable_also");
        lesser(clocked, lesser(enable, first_offset(group, b"input_map")))
    }
}

/// Where the attribute of this name has a value of these, which it may not have. It is no function, since a pattern is no value.
macro_rules! bad_both {
    ($group:expr, $name:literal, $bad:pat) => {
        match last_attribute($group, $name) {
            None => None,
            Some(attribute) => match both_named(attribute.text) {
                $bad => Some(attribute.at),
                Some(_) => None,
            },
        }
    };
}

/// Where `clear_preset_var1` has a value that it may not have.
#[tactic(auto, unfolding(cell_attributes::specs::Scans::first_both_in))]
fn first_both_in(group: &Group) -> Option<usize>
    ensures { result ≡ least (first_both_in_of group.now) }
{
    bad_both!(group, b"clear_preset_var1", None)
}

/// Where `clear_preset_var2` has a value that it may not have.
#[tactic(auto, unfolding(cell_attributes::specs::Scans::second_both_in))]
fn second_both_in(group: &Group) -> Option<usize>
    ensures { result ≡ least (second_both_in_of group.now) }
{
    bad_both!(group, b"clear_preset_var2", None | Some(Both::Keep))
}

/// Where a `clear_preset` attribute has a value that it may not have.
pub(crate) struct ClearPresets;

impl Scan<Group> for ClearPresets {
    ghost places = { λ _. clear_preset_in_of };

    #[tactic(auto, unfolding(cell_attributes::specs::Scans::clear_preset_in), using(cell_machine::proofs::LeastLemmas::least_append))]
    fn least_in(&self, group: &Group) -> Option<usize> {
        if is_called(group, b"statetable") {
            return None;
        }
        lesser(first_both_in(group), second_both_in(group))
    }
}

/// Where the pins of a group are outputs without function.
pub(crate) struct NoFunctions;

impl Scan<Group> for NoFunctions {
    ghost places = { λ _. no_function_in_of };

    #[tactic(auto, unfolding(cell_attributes::specs::Scans::no_function_in))]
    fn least_in(&self, pin: &Group) -> Option<usize> {
        if direction_of(pin) == Some(Direction::Output)
            && is_missing(pin, b"function")
            && is_missing(pin, b"state_function")
            && is_missing(pin, b"internal_node")
        {
            Some(pin.at)
        } else {
            None
        }
    }
}
