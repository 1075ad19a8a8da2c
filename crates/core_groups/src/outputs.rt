//! The three-state outputs of a cell.
ghost use Rattle.std.specs.Prelude.{◌≡◌, ◌==◌, IfOk, length, map};
ghost use Rattle.core_groups.specs.Outputs.{is_three_state as is_three_state_of, outputs_from, shown, ArePins};

use cell_attributes::groups::{inner_groups, is_missing, is_pin, pins_among};
use cell_attributes::pins::{direction_of, owners_of};
use cell_machine::Direction;
use liberty_groups::Group;
use std::alloc::{AllocError, Global};

/// Whether a group makes three-state outputs.
#[tactic(auto, unfolding(crate::specs::Outputs::is_three_state))]
pub fn is_three_state(group: &Group) -> bool
    ensures { result ≡ is_three_state_of group.now }
{
    is_pin(group)
        && direction_of(group) == Some(Direction::Output)
        && !is_missing(group, b"three_state")
}

/// A three-state output.
#[derive(Clone, Copy)]
pub struct ThreeStateOutput<'a> {
    /// The number of its pin in the cell.
    pub pin: usize,
    /// The group that makes the pin.
    pub group: &'a Group,
}

/// The three-state outputs among the pins of a cell, which these groups make.
fn three_state_outputs<'a>(
    alloc: Global,
    owners: &[&'a Group],
) -> Result<Vec<ThreeStateOutput<'a>>, AllocError>
    ensures { IfOk result (λ outputs. map shown outputs.items ≡ outputs_from 0 (map (λ group. group.now) owners.now)) }
{
    let mut outputs = Vec::new(alloc);
    for (pin, owner) in owners.iter().enumerate() {
        if is_three_state(owner) {
            outputs.push(ThreeStateOutput { pin, group: owner })?;
        }
    }
    Ok(outputs)
}

/// The pin groups of a cell and its three-state outputs.
#[derive(Drop)]
pub struct CellPins<'a> {
    /// The groups that make the pins.
    pub groups: Vec<&'a Group>,
    /// The three-state outputs, in the order of the pins.
    pub outputs: Vec<ThreeStateOutput<'a>>,
}

impl<'a> CellPins<'a> {
    /// Those of a cell.
    pub fn of_cell(alloc: Global, cell: &'a Group) -> Result<CellPins<'a>, AllocError>
        ensures { IfOk result (ArePins cell.now) }
    {
        let inner = inner_groups(alloc, cell)?;
        let groups = pins_among(alloc, &inner)?;
        let owners = owners_of(alloc, &groups)?;
        let outputs = three_state_outputs(alloc, &owners)?;
        Ok(CellPins { groups, outputs })
    }

    /// Whether no output of the cell floats.
    pub fn never_float(&self) -> bool
        ensures { result ≡ (length self.now.outputs.items == 0) }
    {
        self.outputs.as_slice().is_empty()
    }
}
