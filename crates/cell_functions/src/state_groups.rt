//! The state groups of a cell.
ghost use Rattle.std.specs.Prelude.{◌≡◌, IfOk, length, map, All};
ghost use Rattle.cell_attributes.specs.Building.{table_groups as table_groups_of};
ghost use Rattle.cell_attributes.specs.Building.{groups_in as groups_in_of, node_groups, groups_from as groups_from_of};
ghost use Rattle.cell_attributes.specs.Building.{FitsReading};
ghost use Rattle.cell_machine.specs.declared.groups.GroupKind.TheVariants as kind_of;
ghost use Rattle.cell_attributes.specs.Shown.{shown_arguments};

use crate::text_kinds::Numbering;
use cell_attributes::state_readings::StateReading;
use cell_attributes::states::{Arguments, arguments_of, is_table, names_in};
use cell_machine::{GroupKind, StateGroup};
use liberty_groups::Group;
use sqlite_items::Items;
use std::alloc::{AllocError, Global};

/// The state of a node of a table.
fn node_group(alloc: Global, node: usize, reading: &StateReading) -> Result<StateGroup, AllocError>
    ensures { IfOk result (λ g. g ≡ record {
      kind = kind_of.Table reading.now.table node reading.now.inputs;
      support =
          reading.now.support;
    }) }
{
    let table = reading.table.again()?;
    let inputs = Items::from_slice(alloc, reading.inputs.as_slice())?;
    let support = Items::from_slice(alloc, reading.support.as_slice())?;
    let kind = GroupKind::Table {
        table,
        node,
        inputs,
    };
    Ok(StateGroup { kind, support })
}

/// The states of these nodes of a table.
fn node_groups_of(
    alloc: Global,
    nodes: &[&[u8]],
    reading: &StateReading,
) -> Result<Items<StateGroup>, AllocError>
    ensures { IfOk result (λ groups. groups ≡ node_groups reading.now.table reading.now 0 (map (λ name. name.now) nodes.now)) }
{
    let mut groups = Items::new(alloc);
    for (node, _name) in nodes.iter().enumerate() {
        groups.push(node_group(alloc, node, reading)?)?;
    }
    Ok(groups)
}

/// The states of the nodes of a table.
fn table_groups(
    alloc: Global,
    reading: &StateReading,
    arguments: Arguments<'_>,
) -> Result<Items<StateGroup>, AllocError>
    ensures { IfOk result (λ groups. groups ≡ table_groups_of reading.now (shown_arguments arguments.entry)) }
{
    let nodes = names_in(alloc, arguments.second)?;
    node_groups_of(alloc, &nodes, reading)
}

/// The states of a group.
fn groups_in(
    alloc: Global,
    to: &[usize],
    group: &Group,
    reading: &StateReading,
) -> Result<Items<StateGroup>, AllocError>
    requires { FitsReading (length to.now) reading.now }
    ensures { IfOk result (λ groups. groups ≡ groups_in_of to.now group.now reading.now) }
{
    let mut groups = Items::new(alloc);
    let Some(arguments) = arguments_of(group) else {
        return Ok(groups);
    };
    if is_table(group) {
        return table_groups(alloc, reading, arguments);
    }
    groups.push(Numbering { alloc, to }.group(group, reading)?)?;
    Ok(groups)
}

/// The states of a cell, from its groups that hold states and what they say.
pub fn state_groups(
    alloc: Global,
    to: &[usize],
    groups: &[&Group],
    readings: &[StateReading],
) -> Result<Items<StateGroup>, AllocError>
    requires lengths { length readings.now ≡ length groups.now }
    requires fit { All (FitsReading (length to.now)) readings.now }
    ensures { IfOk result (λ states. states ≡ groups_from_of to.now (map (λ group. group.now) groups.now) readings.now) }
{
    let mut states = Items::new(alloc);
    for i in 0..groups.len() {
        states.append(groups_in(alloc, to, groups[i], &readings[i])?)?;
    }
    Ok(states)
}
