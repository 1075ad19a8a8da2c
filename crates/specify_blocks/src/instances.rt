//! The instances of a cell's module.
ghost use Rattle.std.specs.Prelude.{◌≡◌, ◌≤◌, ◌<◌, ◌^◌, ◌++◌, map, IfOk, OnOk};
ghost use Rattle.bool_functions.specs.Tree.{name_bound};
ghost use Rattle.cell_machine.specs.CellData.{data_of};
ghost use Rattle.specify_blocks.specs.Generated.{each_from, group_instance, condition_wire, condition_instance, output_instance};
ghost use Rattle.specify_blocks.specs.Generated.{output_instances, instances_of};

use crate::model::{Instance, VNet};
use crate::nets::{add_notifier, nets_of, pin_net};
use bool_functions::Function;
use cell_machine::{Cell, OutputPin, StateGroup, Values};
use cell_tables::{ModelSource, has_sources};
use sqlite_items::Items;
use std::alloc::{AllocError, Global};

/// The instances of a cell's module, by its groups, conditions and outputs.
pub(crate) fn instances_of(from: &ModelSource) -> Result<Items<Instance>, AllocError>
    ensures { IfOk result (λ instances. instances ≡ instances_of (data_of from.now.cell.now)) }
{
    let ModelSource {
        alloc,
        cell,
        conditions,
        ..
    } = *from;
    let mut instances = Items::new(alloc);
    add_groups(alloc, &mut instances, cell)?;
    add_conditions(alloc, &mut instances, cell, conditions)?;
    let first = cell.groups.len() + conditions.len();
    add_outputs(alloc, &mut instances, cell, first)?;
    Ok(instances)
}

/// Adds the instances of the groups.
fn add_groups(alloc: Global, instances: &mut Items<Instance>, cell: &Cell) -> Result<(), AllocError>
    ensures { OnOk result (instances.new ≡ instances.old ++ each_from (group_instance (data_of cell.now)) 0 cell.now.groups) }
{
    for (g, group) in cell.groups.as_slice().iter().enumerate() {
        instances.push(group_instance(alloc, cell, g, group)?)?;
    }
    Ok(())
}

/// The instance of a state group's primitive.
fn group_instance(
    alloc: Global,
    cell: &Cell,
    g: usize,
    group: &StateGroup,
) -> Result<Instance, AllocError>
    ensures { IfOk result (λ instance. instance ≡ group_instance (data_of cell.now) g group.now) }
{
    let mut inputs = nets_of(alloc, cell.pins.as_slice(), group.support.as_slice())?;
    add_notifier(&mut inputs, cell)?;
    Ok(Instance::Primitive {
        udp: g,
        output: VNet::Wire(g),
        inputs,
    })
}

/// Adds the instances of the conditions.
fn add_conditions(
    alloc: Global,
    instances: &mut Items<Instance>,
    cell: &Cell,
    conditions: &[&Function],
) -> Result<(), AllocError>
    ensures { OnOk result (instances.new ≡ instances.old
        ++ each_from (condition_instance (data_of cell.now)) 0 (map (λ f. f.now) conditions.now)) }
{
    for (i, condition) in conditions.iter().enumerate() {
        instances.push(condition_instance(alloc, cell, i, condition)?)?;
    }
    Ok(())
}

/// The instance of a condition's primitive.
fn condition_instance(
    alloc: Global,
    cell: &Cell,
    i: usize,
    condition: &Function,
) -> Result<Instance, AllocError>
    requires { i < 2 ^ 62 }
    ensures { IfOk result (λ instance. instance ≡ condition_instance (data_of cell.now) i condition.now) }
{
    let wire = cell.groups.len() + i;
    let names = condition.support(alloc)?;
    let inputs = nets_of(alloc, cell.pins.as_slice(), &names)?;
    Ok(Instance::Primitive {
        udp: wire,
        output: VNet::Wire(wire),
        inputs,
    })
}

/// Adds the instances of the outputs, where the first primitive of an output has the number `first`.
fn add_outputs(
    alloc: Global,
    instances: &mut Items<Instance>,
    cell: &Cell,
    first: usize,
) -> Result<(), AllocError>
    requires { first < 2 ^ 62 }
    ensures { OnOk result (instances.new ≡ instances.old ++ output_instances (data_of cell.now) first cell.now.outputs) }
{
    let mut next = first;
    for i in 0..cell.outputs.len() {
        let output = cell.output_pin(i);
        instances.push(output_instance(alloc, cell, next, output)?)?;
        if has_sources(output) {
            next += 1;
        }
    }
    Ok(())
}

/// The instance of an output's primitive, or the `buf` of a constant.
fn output_instance(
    alloc: Global,
    cell: &Cell,
    next: usize,
    output: &OutputPin,
) -> Result<Instance, AllocError>
    requires { name_bound output.now.function ≤ 96 }
    ensures { IfOk result (λ instance. instance ≡ output_instance (data_of cell.now) next output.now) }
{
    let pins = cell.pins.as_slice();
    let net = pin_net(pins, output.pin);
    if has_sources(output) {
        Ok(Instance::Primitive {
            udp: next,
            output: net,
            inputs: nets_of(alloc, pins, output.support.as_slice())?,
        })
    } else {
        Ok(Instance::Constant {
            output: net,
            one: Values::new().value(&output.function),
        })
    }
}
