//! The primitives of a cell's module.
ghost use Rattle.std.specs.Prelude.{◌≡◌, ◌++◌, IfOk, OnOk};
ghost use Rattle.cell_machine.specs.CellData.{data_of};
ghost use Rattle.specify_blocks.specs.Generated.{group_primitives, condition_primitives, output_primitives, primitives_of};

use cell_tables::{ModelSource, has_sources, part_udp, sequential_udp};
use sqlite_items::Items;
use std::alloc::AllocError;
use udp_tables::{Part, Udp};

/// The primitives of a cell's module, of its groups, conditions and outputs.
pub(crate) fn primitives_of(from: &ModelSource) -> Result<Items<Udp>, AllocError>
    ensures { IfOk result (λ udps. udps ≡ primitives_of (data_of from.now.cell.now)) }
{
    let mut udps = Items::new(from.alloc);
    add_groups(&mut udps, from)?;
    add_conditions(&mut udps, from)?;
    add_outputs(&mut udps, from)?;
    Ok(udps)
}

/// Adds the primitives of the groups.
fn add_groups(udps: &mut Items<Udp>, from: &ModelSource) -> Result<(), AllocError>
    ensures { OnOk result (udps.new ≡ udps.old ++ group_primitives (data_of from.now.cell.now)) }
{
    for group in 0..from.cell.groups.len() {
        udps.push(sequential_udp(from, group)?)?;
    }
    Ok(())
}

/// Adds the primitives of the conditions.
fn add_conditions(udps: &mut Items<Udp>, from: &ModelSource) -> Result<(), AllocError>
    ensures { OnOk result (udps.new ≡ udps.old ++ condition_primitives (data_of from.now.cell.now)) }
{
    for condition in 0..from.conditions.len() {
        udps.push(part_udp(from, Part::Condition(condition))?)?;
    }
    Ok(())
}

/// Adds the primitives of the outputs that depend on something.
fn add_outputs(udps: &mut Items<Udp>, from: &ModelSource) -> Result<(), AllocError>
    ensures { OnOk result (udps.new ≡ udps.old ++ output_primitives (data_of from.now.cell.now) 0 from.now.cell.now.outputs) }
{
    for i in 0..from.cell.outputs.len() {
        let output = from.cell.output_pin(i);
        if has_sources(output) {
            udps.push(part_udp(from, Part::Output(i))?)?;
        }
    }
    Ok(())
}
