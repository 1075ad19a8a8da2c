//! A cell's group to the cell.
ghost use Rattle.std.specs.Prelude.{◌≡◌, IfOk, IfErr, None, Option, List, Ok, Err};
ghost use Rattle.cell_attributes.specs.Groups.{cell_name as cell_name_of};
ghost use Rattle.cell_attributes.specs.CellLaws.{groups_of, outputs_of};
ghost use Rattle.cell_reader.specs.CellTexts.{subject_of, IsCellOf, IsEarlyUnmet, IsUnmet, Tells};
ghost use Rattle.cell_reader.specs.Refusals.{first_refusal, later_reasons, refusal_of, left_out_of as left_out_of_cell};
ghost use Rattle.cell_reader.specs.Parts.{subject_in, AreParts, AreNumbered};

use crate::cell_groups::cell_groups;
use crate::early::early_refusal;
use crate::fault::CellFault;
use crate::later::middle_refusal;
use crate::numbered::{Numbered, number_names, udp_inputs};
use crate::parts::{Parts, read_parts};
use bool_functions::Names;
use cell_attributes::groups::cell_name;
use cell_machine::{Cell, OutputPin, StateGroup};
use cell_refusals::{Reason, Refusal};
use cell_timings::LeftOut;
use liberty_groups::Group;
use liberty_text::Unit;
use sqlite_items::Items;
use std::alloc::{AllocError, Global};

/// A cell, and what of its group it leaves out.
#[derive(Drop)]
pub struct ReadCell {
    pub cell: Cell,
    /// The timing groups that make no check and no arc of their types, in the order of the pins and their statements.
    pub left_out: Items<LeftOut>,
}

/// The outputs of a cell.
type Outputs = Items<OutputPin>;

/// The outputs of the cell that the parts make, where nothing refuses it.
fn outputs_in(alloc: Global, parts: &Parts<'_>, numbered: &Numbered) -> Result<Outputs, AllocError>
    requires parts { AreParts parts.now }
    requires numbered { AreNumbered parts.now.cell.now numbered.now }
    requires unmet { IsUnmet (subject_in parts.now) parts.now.cell.now }
    ensures { IfOk result (λ outputs. outputs ≡ outputs_of parts.now.cell.now) }
{
    numbered.reader(alloc, parts).all(&parts.named.owners)
}

/// The values of a cell that are no part of what was read.
#[derive(Drop)]
struct Made {
    name: Items<u8>,
    groups: Items<StateGroup>,
    outputs: Outputs,
}

/// The name, the states and the outputs of the cell that the parts make, where nothing refuses it.
fn name_and_outputs(
    alloc: Global,
    parts: &Parts<'_>,
    numbered: Numbered,
) -> Result<Made, AllocError>
    requires parts { AreParts parts.now }
    requires numbered { AreNumbered parts.now.cell.now numbered }
    requires unmet { IsUnmet (subject_in parts.now) parts.now.cell.now }
    ensures name { IfOk result (λ made. made.name ≡ cell_name_of parts.now.cell.now) }
    ensures groups { IfOk result (λ made. made.groups ≡ groups_of parts.now.cell.now) }
    ensures outputs { IfOk result (λ made. made.outputs ≡ outputs_of parts.now.cell.now) }
{
    let name = Items::from_slice(alloc, cell_name(parts.cell))?;
    let outputs = outputs_in(alloc, parts, &numbered)?;
    let groups = numbered.groups;
    Ok(Made {
        name,
        groups,
        outputs,
    })
}

/// The cell that the parts make, where nothing refuses it.
fn make_cell(parts: Parts<'_>, made: Made, number: usize) -> ReadCell
    requires parts { AreParts parts }
    requires name { made.name ≡ cell_name_of parts.cell.now }
    requires groups { made.groups ≡ groups_of parts.cell.now }
    requires outputs { made.outputs ≡ outputs_of parts.cell.now }
    requires unmet { IsUnmet (subject_in parts) parts.cell.now }
    ensures cell { IsCellOf (subject_in parts.entry) number parts.entry.cell.now result.cell }
    ensures left_out { result.left_out ≡ left_out_of_cell (subject_in parts.entry) parts.entry.cell.now }
{
    let (pins, timing) = parts.pins_and_timing();
    let cell = Cell {
        name: made.name,
        number,
        pins,
        groups: made.groups,
        outputs: made.outputs,
        checks: timing.checks,
        arcs: timing.arcs,
    };
    ReadCell {
        cell,
        left_out: timing.left_out,
    }
}

/// The numbers and the groups of a cell, or the first of the reasons that are tried after the texts are read.
fn unrefused_numbers(alloc: Global, parts: &Parts<'_>) -> Result<Numbered, CellFault>
    requires { AreParts parts.now }
    ensures numbered { IfOk result (λ numbered. AreNumbered parts.now.cell.now numbered) }
    ensures unmet { IfOk result (λ _. first_refusal (later_reasons (subject_in parts.now) parts.now.cell.now) ≡ None) }
    ensures refused { IfErr result (Tells (first_refusal (later_reasons (subject_in parts.now) parts.now.cell.now))) }
{
    if let Some(refusal) = middle_refusal(alloc, parts)? {
        return Err(CellFault::Refused(refusal));
    }
    let numbered = number_names(alloc, parts)?;
    if let Some(at) = udp_inputs(alloc, parts, &numbered)? {
        let reason = Reason::UdpInputs;
        return Err(CellFault::Refused(Refusal { reason, at }));
    }
    Ok(numbered)
}

/// What the cell of these parts has besides them, or the first of the reasons that are tried after the texts are read.
fn unrefused(alloc: Global, parts: &Parts<'_>) -> Result<Made, CellFault>
    requires parts { AreParts parts.now }
    requires early { IsEarlyUnmet parts.now.cell.now }
    ensures name { IfOk result (λ made. made.name ≡ cell_name_of parts.now.cell.now) }
    ensures groups { IfOk result (λ made. made.groups ≡ groups_of parts.now.cell.now) }
    ensures outputs { IfOk result (λ made. made.outputs ≡ outputs_of parts.now.cell.now) }
    ensures unmet { IfOk result (λ _. first_refusal (later_reasons (subject_in parts.now) parts.now.cell.now) ≡ None) }
    ensures refused { IfErr result (Tells (first_refusal (later_reasons (subject_in parts.now) parts.now.cell.now))) }
{
    let numbered = unrefused_numbers(alloc, parts)?;
    Ok(name_and_outputs(alloc, parts, numbered)?)
}

/// Both values, where nothing refuses the second one. As `held_with` it is a function of any types.
fn held_unrefused<T: Drop, U>(held: T, made: Result<U, CellFault>) -> Result<(T, U), CellFault>
    ensures held { IfOk result (λ both. both.0 ≡ held) }
    ensures made { IfOk result (λ both. made ≡ Ok both.1) }
    ensures refused { IfErr result (λ fault. made ≡ Err fault) }
{
    Ok((held, made?))
}

/// The cell that the parts make, or the first of the reasons that are tried after the texts are read.
fn read_later(alloc: Global, parts: Parts<'_>, number: usize) -> Result<ReadCell, CellFault>
    requires parts { AreParts parts }
    requires early { IsEarlyUnmet parts.cell.now }
    ensures cell { IfOk result (λ read. IsCellOf (subject_in parts.entry) number parts.entry.cell.now read.cell) }
    ensures left_out { IfOk result (λ read. read.left_out ≡ left_out_of_cell (subject_in parts.entry) parts.entry.cell.now) }
    ensures unmet { IfOk result (λ _. first_refusal (later_reasons (subject_in parts.entry) parts.entry.cell.now) ≡ None) }
    ensures refused { IfErr result (Tells (first_refusal (later_reasons (subject_in parts.entry) parts.entry.cell.now))) }
{
    let made = unrefused(alloc, &parts);
    let (parts, made) = held_unrefused(parts, made)?;
    Ok(make_cell(parts, made, number))
}

/// The cell with this number in its library that a group describes, where `unit` is the library's time unit, if it is a
/// known one, and `earlier` are the names of the cells before it. A cell is refused exactly where it meets one of the
/// fourteen reasons: by the first one that it meets, at the least offset at which it meets it.
pub fn read_cell(
    alloc: Global,
    cell: &Group,
    number: usize,
    unit: Option<Unit>,
    earlier: &Names,
) -> Result<ReadCell, CellFault>
    ensures cell { IfOk result (λ read. IsCellOf (subject_of unit cell.now) number cell.now read.cell) }
    ensures left_out { IfOk result (λ read. read.left_out ≡ left_out_of_cell (subject_of unit cell.now) cell.now) }
    ensures accepted { IfOk result (λ _. refusal_of (subject_of unit cell.now) earlier.now cell.now ≡ None) }
    ensures refused { IfErr result (Tells (refusal_of (subject_of unit cell.now) earlier.now cell.now)) }
{
    let groups = cell_groups(alloc, cell)?;
    if let Some(refusal) = early_refusal(alloc, earlier, cell, &groups)? {
        return Err(CellFault::Refused(refusal));
    }
    let parts = read_parts(alloc, cell, unit, groups)?;
    read_later(alloc, parts, number)
}
