//! A cell's group to the cell whose outputs may float.
ghost use Rattle.std.specs.Prelude.{◌≡◌, IfOk, IfErr, IsTrue, None, Some, [], length};
ghost use Rattle.cell_machine.specs.CellData.{data_of};
ghost use Rattle.cell_machine.specs.CellRules.{is_name};
ghost use Rattle.cell_machine.specs.CellTrace.{inputs_of};
ghost use Rattle.cell_attributes.specs.Pins.{pins_of as pins_of_group};
ghost use Rattle.cell_reader.specs.CellTexts.{subject_of as subject_of_cell, Tells, IsCellOf, IsEarlyUnmet};
ghost use Rattle.cell_reader.specs.Refusals.{left_out_of as left_out_of_cell, refusal_of};
ghost use Rattle.driven_traces.specs.Drivers.{plain};
ghost use Rattle.core_groups.specs.Outputs.{groups_shown, outputs_shown, three_state_outputs, ArePins};
ghost use Rattle.three_state_cells.specs.Drivers.{IsDriverOf};
ghost use Rattle.three_state_cells.specs.Timing.{in_pin_order as in_pin_order_of};
ghost use Rattle.three_state_cells.specs.Refusals.{first_of_two, driver_refusal as driver_refusal_of, floating_refusal};
ghost use Rattle.three_state_cells.specs.Refusals.{driven_refusal, IsRefusedCore};
ghost use Rattle.three_state_cells.specs.DrivenCells.{driven_data, driven_data_of, core_name, plain_of, IsOfCore};
ghost use Rattle.three_state_cells.specs.CoreReadings.{AreDrivers, IsFloating, IsCoreOfPins, IsReadCore};

use crate::driven_cell::DrivenCell;
use crate::driver_refusals::{driver_refusal, first_with};
use crate::drivers::{Drivers, drivers_of, input_number};
use crate::left_out::in_pin_order;
use bool_functions::Names;
use cell_attributes::groups::{inner_groups, pins_among};
use cell_attributes::held::{held_with, kept_unless};
use cell_attributes::pins::pins_of;
use cell_machine::{Cell, Pin};
use cell_reader::{CellFault, LeftOut, ReadCell, Reason, Refusal, names_of, read_cell};
use core_groups::{CellPins, core_group};
use driven_traces::Driver;
use liberty_groups::{Group, copy_bytes};
use liberty_text::Unit;
use sqlite_items::Items;
use std::alloc::{AllocError, Global};
use timing_arcs::Subject;
use vhdl_tokens::numbered_name;

/// The pins of a cell.
fn cell_pins(alloc: Global, cell: &Group) -> Result<Items<Pin>, AllocError>
    ensures { IfOk result (λ pins. pins ≡ pins_of_group cell.now) }
{
    let inner = inner_groups(alloc, cell)?;
    let groups = pins_among(alloc, &inner)?;
    pins_of(alloc, &groups)
}

/// The pins of a cell without Z, with the time unit of its library, where nothing refuses it before its texts are read.
/// `AllocError` comes only where memory is wanting.
pub fn subject_of(alloc: Global, cell: &Group, unit: Option<Unit>) -> Result<Subject, AllocError>
    requires { IsEarlyUnmet cell.now }
    ensures { IfOk result (λ subject. subject ≡ subject_of_cell unit cell.now) }
{
    let pins = cell_pins(alloc, cell)?;
    let names = names_of(alloc, pins.as_slice())?;
    Ok(Subject {
        names,
        pins,
        place: 0,
        unit,
    })
}

/// A cell under another name.
fn renamed(cell: Cell, name: Items<u8>) -> Cell
    requires { IsTrue (is_name name) }
    ensures { data_of result ≡ record (data_of cell) { name = name } }
{
    Cell {
        name,
        number: cell.number,
        pins: cell.pins,
        groups: cell.groups,
        outputs: cell.outputs,
        checks: cell.checks,
        arcs: cell.arcs,
    }
}

/// The core of a cell.
#[derive(Clone, Copy)]
struct Core<'a> {
    group: &'a Group,
    /// The pin groups and the three-state outputs of the cell.
    pins: &'a CellPins<'a>,
    /// The time unit of its library, if it is a known one.
    unit: Option<Unit>,
}

/// What drives the three-state outputs of a cell with this core.
fn core_drivers(alloc: Global, core: Core<'_>) -> Result<Drivers, AllocError>
    requires early { IsEarlyUnmet core.group.now }
    requires is_core { IsCoreOfPins core.group.now core.pins.now }
    ensures { IfOk result
        (λ drivers. AreDrivers core.entry.unit core.entry.group.now (outputs_shown core.entry.pins.now) drivers) }
{
    let mut subject = subject_of(alloc, core.group, core.unit)?;
    drivers_of(alloc, &mut subject, &core.pins.outputs)
}

/// What decides of all that is wrong in the delays of the three-state outputs of a cell with this core.
fn delay_refusal(alloc: Global, core: Core<'_>) -> Result<Option<Refusal>, AllocError>
    requires early { IsEarlyUnmet core.group.now }
    requires is_core { IsCoreOfPins core.group.now core.pins.now }
    ensures { IfOk result
        (λ refusal. refusal
        ≡ driver_refusal_of (subject_of_cell core.entry.unit core.entry.group.now) (groups_shown core.entry.pins.now)) }
{
    let mut subject = subject_of(alloc, core.group, core.unit)?;
    driver_refusal(alloc, &mut subject, &core.pins.groups)
}

/// What decides of a refusal of the core and of what is wrong in the delays of the three-state outputs. The delays are not looked
/// at where a reason with a lesser number is met.
fn decided(alloc: Global, core: Core<'_>, refusal: Refusal) -> Result<Refusal, AllocError>
    requires told { IsRefusedCore core.unit core.group.now refusal }
    requires is_core { IsCoreOfPins core.group.now core.pins.now }
    ensures { IfOk result
        (λ refused. Some refused
        ≡ first_of_two (Some refusal)
        (driver_refusal_of (subject_of_cell core.entry.unit core.entry.group.now) (groups_shown core.entry.pins.now))) }
{
    if refusal.reason.number() < Reason::UnknownName.number() {
        return Ok(refusal);
    }
    let of_delays = delay_refusal(alloc, core)?;
    Ok(first_with(refusal, of_delays))
}

/// What is made of a cell and its drivers.
#[derive(Drop)]
struct Made {
    core_name: Items<u8>,
    name: Items<u8>,
    left_out: Items<LeftOut>,
}

/// The names and the left-out timing groups of a cell with this core and these drivers.
fn names_and_left_out(
    alloc: Global,
    read: &ReadCell,
    drivers: &Drivers,
    number: usize,
) -> Result<Made, AllocError>
    ensures core_name { IfOk result (λ made. made.core_name ≡ core_name number) }
    ensures name { IfOk result (λ made. made.name ≡ read.now.cell.name) }
    ensures left_out { IfOk result
        (λ made. made.left_out ≡ in_pin_order_of 0 read.now.cell.pins read.now.left_out drivers.now.left_out) }
{
    let pins = read.cell.pins.as_slice();
    Ok(Made {
        core_name: numbered_name(alloc, b"-z", number)?,
        name: copy_bytes(alloc, read.cell.name.as_slice())?,
        left_out: in_pin_order(
            alloc,
            pins,
            read.left_out.as_slice(),
            drivers.left_out.as_slice(),
        )?,
    })
}

/// The cell with this core, whose three-state outputs these drive, where this is made of them.
fn driven_by(read: ReadCell, drivers: Drivers, made: Made) -> DrivenCell
    requires name { IsTrue (is_name made.core_name) }
    requires driver { IsDriverOf (data_of read.cell) drivers.driver }
    ensures core { data_of result.core ≡ record (data_of read.cell) { name = made.core_name } }
    ensures name { result.name ≡ made.name }
    ensures driver { result.driver ≡ drivers.driver }
    ensures left_out { result.left_out ≡ made.left_out }
{
    DrivenCell {
        core: renamed(read.cell, made.core_name),
        name: made.name,
        driver: drivers.driver,
        left_out: made.left_out,
    }
}

/// The cell with this core, whose three-state outputs these drive.
fn floating_cell(
    alloc: Global,
    read: ReadCell,
    drivers: Drivers,
    number: usize,
) -> Result<DrivenCell, AllocError>
    requires { IsDriverOf (data_of read.cell) drivers.driver }
    ensures { IfOk result (λ cell. IsFloating read drivers number cell) }
{
    let made = names_and_left_out(alloc, &read, &drivers, number);
    let ((read, drivers), made) = held_with((read, drivers), made)?;
    Ok(driven_by(read, drivers, made))
}

/// The cell with this number and this core, which was read so, where nothing is wrong in the delays of its three-state outputs.
fn with_drivers(
    alloc: Global,
    core: Core<'_>,
    number: usize,
    read: ReadCell,
) -> Result<DrivenCell, AllocError>
    requires { IsReadCore core.unit core.group.now core.pins.now number read }
    ensures { IfOk result
        (IsOfCore core.entry.unit number core.entry.group.now (outputs_shown core.entry.pins.now)) }
{
    let drivers = core_drivers(alloc, core);
    let (read, drivers) = held_with(read, drivers)?;
    floating_cell(alloc, read, drivers, number)
}

/// The same, or what is wrong in these delays.
fn unless_wrong(
    alloc: Global,
    core: Core<'_>,
    number: usize,
    read: ReadCell,
) -> Result<DrivenCell, CellFault>
    requires { IsReadCore core.unit core.group.now core.pins.now number read }
    ensures cell { IfOk result
        (IsOfCore core.entry.unit number core.entry.group.now (outputs_shown core.entry.pins.now)) }
    ensures accepted { IfOk result
        (λ _. driver_refusal_of (subject_of_cell core.entry.unit core.entry.group.now) (groups_shown core.entry.pins.now)
        ≡ None) }
    ensures refused { IfErr result
        (Tells (driver_refusal_of (subject_of_cell core.entry.unit core.entry.group.now) (groups_shown core.entry.pins.now))) }
{
    match kept_unless(read, delay_refusal(alloc, core))? {
        Ok(read) => Ok(with_drivers(alloc, core, number, read)?),
        Err(refusal) => Err(CellFault::Refused(refusal)),
    }
}

/// Why a cell is refused whose core is refused so.
#[tactic(auto, unfolding(crate::specs::Refusals::floating_refusal))]
fn core_fault(alloc: Global, core: Core<'_>, earlier: &Names, fault: CellFault) -> CellFault
    requires told { Tells (refusal_of (subject_of_cell core.unit core.group.now) earlier.now core.group.now) fault }
    requires is_core { IsCoreOfPins core.group.now core.pins.now }
    ensures { Tells
        (floating_refusal core.entry.unit earlier.now core.entry.group.now (groups_shown core.entry.pins.now)) result }
{
    let CellFault::Refused(refusal) = fault else {
        return CellFault::Memory;
    };
    match decided(alloc, core, refusal) {
        Ok(refusal) => CellFault::Refused(refusal),
        Err(AllocError) => CellFault::Memory,
    }
}

/// The cell with this number that has this core.
#[tactic(auto, unfolding(crate::specs::Refusals::floating_refusal))]
fn read_core(
    alloc: Global,
    core: Core<'_>,
    number: usize,
    earlier: &Names,
) -> Result<DrivenCell, CellFault>
    requires { IsCoreOfPins core.group.now core.pins.now }
    ensures cell { IfOk result
        (IsOfCore core.entry.unit number core.entry.group.now (outputs_shown core.entry.pins.now)) }
    ensures accepted { IfOk result
        (λ _. floating_refusal core.entry.unit earlier.now core.entry.group.now (groups_shown core.entry.pins.now) ≡ None) }
    ensures refused { IfErr result
        (Tells (floating_refusal core.entry.unit earlier.now core.entry.group.now (groups_shown core.entry.pins.now))) }
{
    match read_cell(alloc, core.group, number, core.unit, earlier) {
        Ok(read) => unless_wrong(alloc, core, number, read),
        Err(fault) => Err(core_fault(alloc, core, earlier, fault)),
    }
}

/// The cell with this number that a group describes, where these are its pin groups and its three-state outputs, of which there
/// are some.
fn read_floating(
    alloc: Global,
    cell: &Group,
    pins: &CellPins<'_>,
    number: usize,
    unit: Option<Unit>,
    earlier: &Names,
) -> Result<DrivenCell, CellFault>
    requires pins { ArePins cell.now pins.now }
    requires some { pins.now.outputs.items ≡ [] → ⊥ }
    ensures cell { IfOk result (λ driven. driven_data_of driven ≡ driven_data unit number cell.now) }
    ensures accepted { IfOk result (λ _. driven_refusal unit earlier.now cell.now ≡ None) }
    ensures refused { IfErr result (Tells (driven_refusal unit earlier.now cell.now)) }
{
    let group = core_group(alloc, cell, &pins.outputs)?;
    let core = Core {
        group: &group,
        pins,
        unit,
    };
    read_core(alloc, core, number, earlier)
}

/// What is made of a cell without three-state outputs: its name, once more, and a driver of nothing.
#[tactic(auto, using(crate::proofs::Turns::all_inputs))]
fn plain_parts(alloc: Global, cell: &Cell) -> Result<(Items<u8>, Driver), AllocError>
    ensures name { IfOk result (λ parts. parts.0 ≡ cell.now.name) }
    ensures driver { IfOk result (λ parts. parts.1 ≡ plain (inputs_of (data_of cell.now)) (length cell.now.outputs)) }
{
    let pins = cell.pins.as_slice();
    let name = copy_bytes(alloc, cell.name.as_slice())?;
    let driver = Driver::plain(alloc, input_number(pins, pins.len()), cell.outputs.len());
    Ok((name, driver))
}

/// The cell without three-state outputs that was read, with this name and this driver.
fn undriven(read: ReadCell, name: Items<u8>, driver: Driver) -> DrivenCell
    requires { IsDriverOf (data_of read.cell) driver }
    ensures core { data_of result.core ≡ data_of read.cell }
    ensures name { result.name ≡ name }
    ensures driver { result.driver ≡ driver }
    ensures left_out { result.left_out ≡ read.left_out }
{
    DrivenCell {
        core: read.cell,
        name,
        driver,
        left_out: read.left_out,
    }
}

/// The cell without three-state outputs that was read.
fn plain_cell(alloc: Global, read: ReadCell) -> Result<DrivenCell, AllocError>
    ensures { IfOk result (λ cell. driven_data_of cell ≡ plain_of (data_of read.cell) read.left_out) }
{
    let parts = plain_parts(alloc, &read.cell);
    let (read, (name, driver)) = held_with(read, parts)?;
    Ok(undriven(read, name, driver))
}

/// The cell with this number that a group without three-state outputs describes.
fn read_undriven(
    alloc: Global,
    cell: &Group,
    number: usize,
    unit: Option<Unit>,
    earlier: &Names,
) -> Result<DrivenCell, CellFault>
    requires { three_state_outputs cell.now ≡ [] }
    ensures cell { IfOk result (λ driven. driven_data_of driven ≡ driven_data unit number cell.now) }
    ensures accepted { IfOk result (λ _. driven_refusal unit earlier.now cell.now ≡ None) }
    ensures refused { IfErr result (Tells (driven_refusal unit earlier.now cell.now)) }
{
    let read = read_cell(alloc, cell, number, unit, earlier)?;
    Ok(plain_cell(alloc, read)?)
}

/// The cell with this number in its library that a group describes, where `unit` is the library's time unit, if it is a known
/// one, and `earlier` are the names of the cells before it. Its outputs may float (Liberty Reference Manual, `three_state`): then
/// it is a core without Z, whose name is `-z` and the number, and what drives the three-state outputs. A cell without three-state
/// outputs is its own core.
///
/// A cell is refused exactly where its core meets one of the fourteen reasons, or a related pin or a time of the delays of its
/// three-state outputs is none: by the reason with the least number of these, at the least offset at which it is met. The name
/// that is judged is the cell's own. `Memory` comes only where memory is wanting.
pub fn read_driven(
    alloc: Global,
    cell: &Group,
    number: usize,
    unit: Option<Unit>,
    earlier: &Names,
) -> Result<DrivenCell, CellFault>
    ensures cell { IfOk result (λ driven. driven_data_of driven ≡ driven_data unit number cell.now) }
    ensures accepted { IfOk result (λ _. driven_refusal unit earlier.now cell.now ≡ None) }
    ensures refused { IfErr result (Tells (driven_refusal unit earlier.now cell.now)) }
{
    let pins = CellPins::of_cell(alloc, cell)?;
    if pins.never_float() {
        read_undriven(alloc, cell, number, unit, earlier)
    } else {
        read_floating(alloc, cell, &pins, number, unit, earlier)
    }
}
