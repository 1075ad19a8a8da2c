//! The primitives of a cell.
ghost use Rattle.std.specs.Prelude.{◌≡◌, ◌<◌, ◌≤◌, map, length, take, count_by, IfOk};
ghost use Rattle.cell_machine.specs.CellData.{data_of};
ghost use Rattle.cell_machine.specs.CellTrace.{support_at, step_at};
ghost use Rattle.udp_tables.specs.Sequential.{compact_rows};
ghost use Rattle.udp_tables.specs.Conditions.{conditions_of};
ghost use Rattle.udp_tables.specs.CellPrimitives.{has_notifier, group_inputs, group_primitive, has_sources, output_number};
ghost use Rattle.udp_tables.specs.CellPrimitives.{part_primitive, IsPart};
ghost use Rattle.cell_tables.specs.PartNumbers.{part_number};

use crate::level_rows::{or_free_row, part_rows};
use crate::model_source::ModelSource;
use crate::port_names::{named_primitive, primitive_name};
use crate::step_rows::group_rows;
use bool_functions::Function;
use cell_machine::{Cell, OutputPin};
use sqlite_items::Items;
use std::alloc::AllocError;
use udp_tables::{Part, Udp, UdpRow, UdpRows};

/// The primitive of a group, of which the cell has one with this number from 0. Its inputs are the pins of the group's
/// support, and last the notifier exactly where the cell has checks. `AllocError` comes only where memory is wanting.
pub fn sequential_udp(from: &ModelSource, group: usize) -> Result<Udp, AllocError>
    requires { group < length from.now.cell.now.groups }
    ensures { IfOk result (λ udp. udp ≡ group_primitive (data_of from.now.cell.now) group) }
{
    let ModelSource { alloc, cell, .. } = *from;
    let name = primitive_name(alloc, cell.number, group + 1)?;
    let rows = sequential_rows(from, group)?;
    named_primitive(alloc, name, group_inputs(cell, group), true, rows)
}

/// The rows of the primitive of a group: those that decide, or one that gives x where there is none.
fn sequential_rows(from: &ModelSource, group: usize) -> Result<Items<UdpRow>, AllocError>
    requires { group < length from.now.cell.now.groups }
    ensures { IfOk result (λ rows. rows ≡ compact_rows (has_notifier (data_of from.now.cell.now))
        (length (support_at (data_of from.now.cell.now) group)) (step_at (data_of from.now.cell.now) group)) }
{
    let maker = UdpRows {
        notifier: has_notifier(from.cell),
    };
    let decisive = group_rows(from, group, maker)?;
    let free = &from.group_cubes(group).forced.free;
    let rows = or_free_row(from.alloc, decisive, maker, free)?;
    Ok(rows)
}

/// How many inputs the primitive of a group has.
fn group_inputs(cell: &Cell, group: usize) -> usize
    requires { group < length cell.now.groups }
    ensures { result ≡ group_inputs (data_of cell.now) group }
{
    let pins = cell.group(group).support.len();
    if has_notifier(cell) { pins + 1 } else { pins }
}

/// Whether the tables of groups have a column for the checks, that of a notifier or of a violation: the cell has checks.
pub fn has_notifier(cell: &Cell) -> bool
    ensures { result ≡ has_notifier (data_of cell.now) }
{
    !cell.checks.is_empty()
}

/// The primitive of an output or a condition that the cell has, of an output one that depends on anything. Its inputs are
/// the pins, and then the states, of the support. `AllocError` comes only where memory is wanting.
pub fn part_udp(from: &ModelSource, part: Part) -> Result<Udp, AllocError>
    requires { IsPart (data_of from.now.cell.now) part }
    ensures { IfOk result (λ udp. udp ≡ part_primitive (data_of from.now.cell.now) part) }
{
    let name = primitive_name(from.alloc, from.cell.number, part_number(from, part))?;
    let rows = part_rows(from, part, UdpRows { notifier: false })?;
    let inputs = from.part_cubes(part).free.len();
    named_primitive(from.alloc, name, inputs, false, rows)
}

/// The number of the primitive of a part.
fn part_number(from: &ModelSource, part: Part) -> usize
    requires { IsPart (data_of from.now.cell.now) part }
    ensures { result ≡ part_number (data_of from.now.cell.now) part }
{
    match part {
        Part::Output(output) => output_number(from.cell, from.conditions, output),
        Part::Condition(number) => from.cell.groups.len() + number + 1,
    }
}

/// The number of the primitive of an output: after the groups, the conditions and the outputs before it that depend on
/// anything.
fn output_number(cell: &Cell, conditions: &[&Function], output: usize) -> usize
    requires output { output < length cell.now.outputs }
    requires conditions { map (λ condition. condition.now) conditions.now ≡ conditions_of (data_of cell.now) }
    ensures { result ≡ output_number (data_of cell.now) output }
{
    let before = outputs_before(cell.outputs.as_slice(), output);
    cell.groups.len() + conditions.len() + before + 1
}

/// How many of the first outputs depend on anything.
fn outputs_before(outputs: &[OutputPin], count: usize) -> usize
    requires { count ≤ length outputs.now }
    ensures { result ≡ count_by has_sources (take count outputs.now) }
{
    let mut found = 0;
    for i in 0..count {
        if has_sources(&outputs[i]) {
            found += 1;
        }
    }
    found
}

/// Whether an output depends on anything.
pub fn has_sources(output: &OutputPin) -> bool
    ensures { result ≡ has_sources output.now }
{
    !output.support.is_empty()
}
