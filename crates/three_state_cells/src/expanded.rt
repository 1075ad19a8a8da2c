//! The cell that a group with buses, bundles or banks describes.
ghost use Rattle.std.specs.Prelude.{◌≡◌, true, false, None, Some, IfOk, IfErr, IfSome, flat_map, drop};
ghost use Rattle.std.specs.List.{fold};
ghost use Rattle.bus_texts.specs.Vectors.{cell_vectors as cell_vectors_of};
ghost use Rattle.bank_cells.specs.Refusals.{has_many};
ghost use Rattle.bank_cells.specs.Expanded.{expanded};
ghost use Rattle.bank_cells.specs.Gathered.{gathered_cell, gathered_item};
ghost use Rattle.cell_attributes.specs.Groups.{pin_groups};
ghost use Rattle.cell_attributes.specs.Pins.{owners_in, owners_of as owners_of_cell};
ghost use Rattle.cell_reader.specs.CellTexts.{subject_of as subject_of_cell, Tells};
ghost use Rattle.cell_reader.specs.Refusals.{refusal_of};
ghost use Rattle.core_groups.specs.Outputs.{CanBeNumbered, groups_shown};
ghost use Rattle.three_state_cells.specs.DrivenCells.{driven_data, driven_data_of};
ghost use Rattle.three_state_cells.specs.CoreReadings.{Reads};
ghost use Rattle.three_state_cells.specs.Refusals.{driven_refusal, driver_refusal as driver_refusal_of};
ghost use Rattle.three_state_cells.specs.Refusals.{first_of_two as first_of_two_of, IsRefusedCore};
ghost use Rattle.three_state_cells.specs.Trimmed.{are_behind as are_behind_of, trimmed, all_keep_order, lost_wrong};
ghost use Rattle.three_state_cells.specs.Trimmed.{HasNoneApart, IsTrimmedCore};
ghost use Rattle.three_state_cells.specs.Sinks.{after_trimmed, nothing_trimmed};

use crate::driven_cell::DrivenCell;
use crate::driver_refusals::first_with;
use crate::read::{read_driven, subject_of};
use crate::trimmed_items::{AllItems, TrimmedItems};
use crate::trimming::are_behind;
use crate::wrong_timings::WrongTimings;
use bank_cells::gather;
use bool_functions::Names;
use bus_texts::BusTypes;
use cell_attributes::pins::owners_of;
use cell_reader::{CellFault, Reason, Refusal, read_cell};
use core_groups::{CellPins, core_group};
use group_copies::with_items;
use liberty_groups::Group;
use liberty_text::Unit;
use std::alloc::{AllocError, Global};

/// The gathered group of a cell, with the timing of all pins.
fn whole_group(alloc: Global, types: &BusTypes, cell: &Group) -> Result<Group, AllocError>
    ensures { IfOk result (λ group. group ≡ gathered_cell types.now cell.now) }
{
    let mut held = AllItems::new(alloc);
    gather(alloc, cell, types, &mut held)?;
    with_items(alloc, cell, held.items)
}

/// The statements of the gathered group, trimmed.
fn trimmed_items(alloc: Global, types: &BusTypes, cell: &Group) -> Result<TrimmedItems, AllocError>
    ensures { IfOk result
        (λ held.
        held
        ≡ fold after_trimmed nothing_trimmed
        (flat_map (gathered_item types.now (cell_vectors_of types.now cell.now)) cell.now.items)) }
{
    let mut held = TrimmedItems::new(alloc);
    gather(alloc, cell, types, &mut held)?;
    Ok(held)
}

/// A gathered group without the timing of pins behind the limit.
#[derive(Drop)]
struct TrimmedGroup {
    group: Group,
    /// Nothing is left out.
    is_whole: bool,
    /// Its pins that lost timing stand before their statements.
    is_ordered: bool,
    /// Some timing is read apart from the trimmed core.
    has_apart: bool,
}

/// That of a cell.
fn trimmed_group(alloc: Global, types: &BusTypes, cell: &Group) -> Result<TrimmedGroup, AllocError>
    ensures group { IfOk result (λ made. made.group ≡ trimmed (gathered_cell types.now cell.now)) }
    ensures whole { IfOk result (λ made. made.is_whole ≡ true → made.group ≡ gathered_cell types.now cell.now) }
    ensures ordered { IfOk result
        (λ made. made.is_ordered ≡ true → all_keep_order 0 (owners_of_cell (gathered_cell types.now cell.now)) ≡ true) }
    ensures apart { IfOk result (λ made. made.has_apart ≡ false → HasNoneApart (gathered_cell types.now cell.now)) }
{
    let held = trimmed_items(alloc, types, cell)?;
    let is_whole = held.is_whole;
    let is_ordered = held.is_ordered;
    let has_apart = held.has_apart;
    let group = with_items(alloc, cell, held.items)?;
    Ok(TrimmedGroup {
        group,
        is_whole,
        is_ordered,
        has_apart,
    })
}

/// Whether the pins of a cell behind the limit, which these groups make, stand in order.
fn is_in_order(alloc: Global, pins: &CellPins<'_>) -> Result<bool, AllocError>
    requires { CanBeNumbered (groups_shown pins.now) }
    ensures { IfOk result (λ ordered. ordered ≡ are_behind_of (drop 64 (flat_map owners_in (groups_shown pins.now)))) }
{
    let owners = owners_of(alloc, &pins.groups)?;
    Ok(are_behind(&owners))
}

/// What is read of a cell with buses, bundles or banks.
#[derive(Clone, Copy)]
struct Source<'a> {
    /// The types of buses that stand before it.
    types: &'a BusTypes,
    cell: &'a Group,
    /// The time unit of its library, if it is a known one.
    unit: Option<Unit>,
    /// The names of the cells before it.
    earlier: &'a Names,
}

/// What decides of a refusal of the trimmed core of a cell, of all that is wrong in the timing that the core lost, and of all
/// that is wrong in the delays of the three-state outputs.
fn with_lost_timing(
    alloc: Global,
    source: Source<'_>,
    core: &Group,
    has_apart: bool,
    refusal: Refusal,
) -> Result<Refusal, AllocError>
    requires apart { has_apart ≡ false → HasNoneApart (gathered_cell source.types.now source.cell.now) }
    requires core { IsTrimmedCore (gathered_cell source.types.now source.cell.now) core.now }
    requires told { IsRefusedCore source.unit core.now refusal }
    ensures { IfOk result
        (λ told. Some told
        ≡ first_of_two_of
        (first_of_two_of (Some refusal)
        (lost_wrong (subject_of_cell source.entry.unit core.now) (gathered_cell source.entry.types.now source.entry.cell.now)))
        (driver_refusal_of (subject_of_cell source.entry.unit core.now)
        (pin_groups (gathered_cell source.entry.types.now source.entry.cell.now)))) }
{
    if !has_apart {
        return Ok(refusal);
    }
    if refusal.reason.number() < Reason::Malformed.number() {
        return Ok(refusal);
    }
    let mut wrong = WrongTimings {
        subject: subject_of(alloc, core, source.unit)?,
        found: None,
        delays: None,
    };
    gather(alloc, source.cell, source.types, &mut wrong)?;
    let lost = first_with(refusal, wrong.found);
    Ok(first_with(lost, wrong.delays))
}

/// The fault of a cell whose trimmed core has this one.
fn fault_with_lost_timing(
    alloc: Global,
    source: Source<'_>,
    core: &Group,
    has_apart: bool,
    fault: CellFault,
) -> CellFault
    requires apart { has_apart ≡ false → HasNoneApart (gathered_cell source.types.now source.cell.now) }
    requires core { IsTrimmedCore (gathered_cell source.types.now source.cell.now) core.now }
    requires told { Tells (refusal_of (subject_of_cell source.unit core.now) source.earlier.now core.now) fault }
    ensures { Tells (driven_refusal source.entry.unit source.entry.earlier.now
        (gathered_cell source.entry.types.now source.entry.cell.now)) result }
{
    let CellFault::Refused(refusal) = fault else {
        return CellFault::Memory;
    };
    match with_lost_timing(alloc, source, core, has_apart, refusal) {
        Ok(refusal) => CellFault::Refused(refusal),
        Err(AllocError) => CellFault::Memory,
    }
}

/// Why a cell is refused that has more pins than a cell may have, and whose trimmed core is this.
fn trimmed_fault(
    alloc: Global,
    source: Source<'_>,
    core: &Group,
    has_apart: bool,
    number: usize,
) -> CellFault
    requires core { IsTrimmedCore (gathered_cell source.types.now source.cell.now) core.now }
    requires apart { has_apart ≡ false → HasNoneApart (gathered_cell source.types.now source.cell.now) }
    ensures { Tells (driven_refusal source.entry.unit source.entry.earlier.now
        (gathered_cell source.entry.types.now source.entry.cell.now)) result }
{
    match read_cell(alloc, core, number, source.unit, source.earlier) {
        // It has too many pins.
        Ok(_) => unreachable!(),
        Err(fault) => fault_with_lost_timing(alloc, source, core, has_apart, fault),
    }
}

/// The trimmed core of a cell whose gathered group is trimmed to this, where its pins behind the limit stand in order.
fn trimmed_core(
    alloc: Global,
    source: Source<'_>,
    made: &TrimmedGroup,
) -> Result<Option<Group>, AllocError>
    requires group { made.now.group ≡ trimmed (gathered_cell source.types.now source.cell.now) }
    requires ordered { made.now.is_ordered ≡ true
        → all_keep_order 0 (owners_of_cell (gathered_cell source.types.now source.cell.now)) ≡ true }
    ensures { IfOk result
        (λ core. IfSome core (IsTrimmedCore (gathered_cell source.entry.types.now source.entry.cell.now))) }
{
    let pins = CellPins::of_cell(alloc, &made.group)?;
    if !made.is_ordered || !is_in_order(alloc, &pins)? {
        return Ok(None);
    }
    let core = core_group(alloc, &made.group, &pins.outputs)?;
    Ok(Some(core))
}

/// The cell with this number that a group with buses, bundles or banks describes, as its gathered group: with the timing of all
/// pins, unless the pins behind the limit can be read without theirs.
fn read_gathered(alloc: Global, source: Source<'_>, number: usize) -> Result<DrivenCell, CellFault>
    ensures { Reads source.entry.unit source.entry.earlier.now number
        (gathered_cell source.entry.types.now source.entry.cell.now) result }
{
    let made = trimmed_group(alloc, source.types, source.cell)?;
    if made.is_whole {
        return read_driven(alloc, &made.group, number, source.unit, source.earlier);
    }
    if let Some(core) = trimmed_core(alloc, source, &made)? {
        return Err(trimmed_fault(alloc, source, &core, made.has_apart, number));
    }
    let group = whole_group(alloc, source.types, source.cell)?;
    read_driven(alloc, &group, number, source.unit, source.earlier)
}

/// The cell with this number in its library that a group with buses, bundles or banks describes, expanded to single bits with the
/// types of buses that stand before it, where `unit` is the library's time unit, if it is a known one, and `earlier` are the
/// names of the cells before it. The group is one that nothing refuses to expand.
///
/// Of a pin group behind the limit of pins that makes one pin, the timing is held only while it is read, where its statements
/// stand in the order of their offsets. `Memory` comes only where memory is wanting.
pub fn read_expanded(
    alloc: Global,
    types: &BusTypes,
    cell: &Group,
    number: usize,
    unit: Option<Unit>,
    earlier: &Names,
) -> Result<DrivenCell, CellFault>
    requires { has_many cell.now ≡ true }
    ensures cell { IfOk result (λ driven. driven_data_of driven ≡ driven_data unit number (expanded types.now cell.now)) }
    ensures accepted { IfOk result (λ _. driven_refusal unit earlier.now (expanded types.now cell.now) ≡ None) }
    ensures refused { IfErr result (Tells (driven_refusal unit earlier.now (expanded types.now cell.now))) }
{
    let source = Source {
        types,
        cell,
        unit,
        earlier,
    };
    read_gathered(alloc, source, number)
}
