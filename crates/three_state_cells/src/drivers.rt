//! What drives the three-state outputs of a cell.
ghost use Rattle.std.specs.Prelude.{◌≡◌, ◌≤◌, ◌-◌, [], ◌∷◌, ◌++◌, IfOk, OnOk, length, count_by, map};
ghost use Rattle.cell_machine.specs.Inputs.{is_input_at, input_number as input_number_of};
ghost use Rattle.core_groups.specs.Outputs.{shown};
ghost use Rattle.timing_arcs.specs.Timing.{reading_answer};
ghost use Rattle.cell_reader.specs.PinTimings.{subject_at, arcs_in};
ghost use Rattle.core_groups.specs.DriverGroups.{driver_pin as driver_pin_of};
ghost use Rattle.three_state_cells.specs.Timing.{is_output_at, output_number as output_number_of, driven_of};
ghost use Rattle.three_state_cells.specs.Timing.{path_of as path_of_arc};
ghost use Rattle.three_state_cells.specs.Timing.{places_in, left_out_as, left_out_of, all_left_out, paths_of, paths_from};
ghost use Rattle.three_state_cells.specs.Timing.{driver_of as driver_of_outputs};

use crate::left_out::add_left_out;
use crate::subjects::move_to;
use cell_machine::{Arc, Direction, Pin};
use cell_reader::LeftOut;
use core_groups::{ThreeStateOutput, driver_pin};
use driven_traces::{DrivePath, Driver};
use liberty_groups::Group;
use sqlite_items::Items;
use std::alloc::{AllocError, Global};
use timing_arcs::{PinTiming, Room, Subject, TimingFault, read_timing};

/// The number of a pin among the input pins: how many of these stand before it.
pub(crate) fn input_number(pins: &[Pin], pin: usize) -> usize
    ensures { result ≡ input_number_of pins.now pin }
{
    pins.iter()
        .take(pin)
        .filter(|pin| pin.direction == Direction::Input)
        .count()
}

/// The number of a pin among the output pins: how many of these stand before it.
fn output_number(pins: &[Pin], pin: usize) -> usize
    ensures { result ≡ output_number_of pins.now pin }
{
    pins.iter()
        .take(pin)
        .filter(|pin| pin.direction == Direction::Output)
        .count()
}

/// Adds the paths of these arcs, which end at the output with this number among the three-state outputs.
fn add_paths(
    paths: &mut Items<DrivePath>,
    pins: &[Pin],
    drive: usize,
    arcs: &[Arc],
) -> Result<(), AllocError>
    ensures { OnOk result (paths.new ≡ paths.old ++ map (path_of_arc pins.now drive) arcs.now) }
{
    for arc in arcs {
        paths.push(DrivePath {
            from: input_number(pins, arc.from),
            drive,
            rise: arc.rise,
            fall: arc.fall,
        })?;
    }
    Ok(())
}

/// What reading the delays of a three-state output of this group answers, where the subject is its pin. There are no checks, and
/// no more arcs than pins, since no two of them start at one pin.
fn answer_of(
    alloc: Global,
    core: &Subject,
    group: &Group,
) -> Result<Result<PinTiming, TimingFault>, AllocError>
    ensures arcs { IfOk result (λ answer. arcs_in answer ≡ arcs_in (reading_answer core.now (driver_pin_of group.now))) }
    ensures left_out { IfOk result (λ answer. places_in answer ≡ places_in (reading_answer core.now (driver_pin_of group.now))) }
{
    let driver = driver_pin(alloc, group)?;
    let room = Room {
        checks: 0,
        arcs: core.pins.len(),
        left_out: true,
    };
    read_timing(alloc, &driver, core, room)
}

/// What drives some three-state outputs.
#[derive(Drop)]
pub(crate) struct Drivers {
    /// Their driver.
    pub driver: Driver,
    /// Their timing groups that make no path.
    pub left_out: Items<LeftOut>,
}

impl Drivers {
    /// Those of no outputs so far, where these are the pins of a core that has so many enables.
    #[tactic(auto, using(crate::proofs::Turns::all_inputs, crate::proofs::Turns::all_outputs))]
    fn new(alloc: Global, pins: &[Pin], enables: usize) -> Drivers
        requires { enables ≤ count_by is_output_at pins.now }
        ensures inputs { result.driver.inputs ≡ count_by is_input_at pins.now }
        ensures outputs { result.driver.outputs ≡ count_by is_output_at pins.now - enables }
        ensures drives { result.driver.drives ≡ [] }
        ensures paths { result.driver.paths ≡ [] }
        ensures left_out { result.left_out ≡ [] }
    {
        Drivers {
            driver: Driver {
                inputs: input_number(pins, pins.len()),
                outputs: output_number(pins, pins.len()) - enables,
                drives: Items::new(alloc),
                paths: Items::new(alloc),
            },
            left_out: Items::new(alloc),
        }
    }

    /// Adds what drives one more output, where these are the pins of the core.
    fn add(
        &mut self,
        alloc: Global,
        core: &mut Subject,
        output: ThreeStateOutput<'_>,
    ) -> Result<(), AllocError>
        ensures inputs { OnOk result (self.new.driver.inputs ≡ self.old.driver.inputs) }
        ensures outputs { OnOk result (self.new.driver.outputs ≡ self.old.driver.outputs) }
        ensures drives { OnOk result (self.new.driver.drives ≡ self.old.driver.drives
            ++ output_number_of core.old.pins output.entry.pin ∷ []) }
        ensures paths { OnOk result (self.new.driver.paths ≡ self.old.driver.paths
            ++ paths_of core.old (length self.old.driver.drives) (shown output.entry)) }
        ensures left_out { OnOk result (self.new.left_out ≡ self.old.left_out ++ left_out_of core.old (shown output.entry)) }
        ensures core { OnOk result (core.new ≡ subject_at core.old output.entry.pin) }
    {
        move_to(core, output.pin);
        let drive = self.driver.drives.len();
        let pins = core.pins.as_slice();
        self.driver.drives.push(output_number(pins, output.pin))?;
        let answer = answer_of(alloc, core, output.group)?;
        self.add_answer(alloc, pins, drive, output, &answer)
    }

    /// Adds the paths and the left-out timing groups of an output, where this is its number among the three-state outputs, these
    /// are the pins of the core, and reading its delays answers this.
    fn add_answer(
        &mut self,
        alloc: Global,
        pins: &[Pin],
        drive: usize,
        output: ThreeStateOutput<'_>,
        answer: &Result<PinTiming, TimingFault>,
    ) -> Result<(), AllocError>
        ensures inputs { OnOk result (self.new.driver.inputs ≡ self.old.driver.inputs) }
        ensures outputs { OnOk result (self.new.driver.outputs ≡ self.old.driver.outputs) }
        ensures drives { OnOk result (self.new.driver.drives ≡ self.old.driver.drives) }
        ensures paths { OnOk result (self.new.driver.paths ≡ self.old.driver.paths
            ++ map (path_of_arc pins.now drive) (arcs_in answer.now)) }
        ensures left_out { OnOk result (self.new.left_out ≡ self.old.left_out
            ++ map (left_out_as (shown output.entry)) (places_in answer.now)) }
    {
        let Ok(timing) = answer else {
            return Ok(());
        };
        add_paths(&mut self.driver.paths, pins, drive, timing.arcs.as_slice())?;
        add_left_out(
            alloc,
            &mut self.left_out,
            output,
            timing.left_out.as_slice(),
        )
    }
}

/// What drives the three-state outputs of a cell, where these are the pins of the core.
#[tactic(auto, unfolding(crate::specs::Timing::driver_of))]
pub(crate) fn drivers_of(
    alloc: Global,
    core: &mut Subject,
    outputs: &[ThreeStateOutput<'_>],
) -> Result<Drivers, AllocError>
    requires { length outputs.now ≤ count_by is_output_at core.old.pins }
    ensures driver { IfOk result (λ drivers. drivers.driver ≡ driver_of_outputs core.old (map shown outputs.now)) }
    ensures left_out { IfOk result (λ drivers. drivers.left_out ≡ all_left_out core.old (map shown outputs.now)) }
{
    let mut drivers = Drivers::new(alloc, core.pins.as_slice(), outputs.len());
    for output in outputs {
        drivers.add(alloc, core, *output)?;
    }
    Ok(drivers)
}
