//! The simulator of a core behind its drivers.
ghost use Rattle.std.specs.Prelude.{◌≡◌, ◌+◌, ◌<◌, [], List, length, map, IfOk};
ghost use Rattle.cell_machine.specs.declared.changes.Change.{Change as ChangeOf};
ghost use Rattle.cell_machine.specs.Each.{each};
ghost use Rattle.driven_traces.specs.Drivers.{IsSound, IsCoreOf, number_of};
ghost use Rattle.driven_traces.specs.DrivenLines.{driven_value, driven_delay, driven_machine};
ghost use Rattle.driven_traces.specs.DrivenStands.{Stands, numbers, first_shown, next_shown, driven_sized};

use crate::delays::{DriveChange, least_delay};
use crate::drivers::Driver;
use crate::drives::drive;
use cell_machine::{CellSim, Sizes};
use sqlite_items::Items;
use std::alloc::{AllocError, Global};
use stimulus::{Drive, TraceSim};
use trit_cubes::Trit;

/// What a driven output shows, and its delay in picoseconds where it changed at the last change.
#[derive(Clone, Copy)]
pub struct DriveShown {
    /// What it shows.
    pub value: Drive,
    /// The delay, there exactly where what it shows changed.
    pub delay: Option<u64>,
}

/// A core behind the drivers of its outputs: it takes the core's changes and shows the driven trace.
#[derive(Drop)]
pub struct DrivenSim<'a, S: CellSim> {
    core: S,
    driver: &'a Driver,
    shown: Items<DriveShown>,
    ghost sound: { IsSound driver.now },
    ghost is_core: { IsCoreOf driver.now (S.machine core) },
    ghost each_drive: { length shown ≡ length driver.now.drives },
}

impl<'a, S: CellSim + Drop> DrivenSim<'a, S> {
    /// A core at its start behind its drivers. Memory is wanted for what each driven output shows.
    pub fn over(alloc: Global, core: S, driver: &'a Driver) -> Result<DrivenSim<'a, S>, AllocError>
        requires sound { IsSound driver.now }
        requires is_core { IsCoreOf driver.now (S.machine core) }
        requires start { S.stands core [] }
        ensures machine { IfOk result (λ sim. ⟦<DrivenSim<'a, S> as TraceSim>⟧.machine sim ≡ driven_machine driver.now
            (S.machine core)) }
        ensures stands { IfOk result (λ sim. ⟦<DrivenSim<'a, S> as TraceSim>⟧.stands sim []) }
    {
        let shown = show_start(alloc, &core, driver)?;
        Ok(DrivenSim {
            core,
            driver,
            shown,
        })
    }
}

impl<'a, S: CellSim> DrivenSim<'a, S> {
    /// The number of an output among the driven ones, where it is driven. Where nothing is driven no output is looked up.
    fn number(&self, place: usize) -> Option<usize>
        ensures { result ≡ number_of self.now.driver.now place }
    {
        if self.shown.is_empty() {
            return None;
        }
        self.driver.number(place)
    }
}

impl<'a, S: CellSim> TraceSim for DrivenSim<'a, S> {
    ghost machine = { λ s. driven_machine s.driver.now (S.machine s.core) };

    ghost stands = { λ s h. Stands s.driver.now (S.machine s.core).line (S.stands s.core) s.shown h };

    fn sizes(&self) -> Sizes {
        Sizes {
            inputs: self.driver.inputs,
            outputs: self.driver.outputs,
            checks: self.core.checks(),
        }
    }

    fn step(&mut self, at: u64, pin: usize, to: Trit) {
        self.core.step(at, pin, to);
        show_all(&self.core, self.driver, pin, &mut self.shown);
    }

    fn value(&self, place: usize) -> Drive {
        match self.number(place) {
            Some(number) => self.shown.as_slice()[number].value,
            None => Drive::of(self.core.output(place)),
        }
    }

    fn delay(&self, place: usize) -> Option<u64> {
        match self.number(place) {
            Some(number) => self.shown.as_slice()[number].delay,
            None => self.core.delay(place),
        }
    }

    fn reported(&self, check: usize) -> bool {
        self.core.reported(check)
    }

    ghost sized = { λ s. driven_sized s.driver.now (S.machine s.core) (S.sized s.core) };
}

/// What the driven output with this number shows of the core.
fn driven_value<S: CellSim>(core: &S, driver: &Driver, number: usize) -> Drive
    requires sound { IsSound driver.now }
    requires is_core { IsCoreOf driver.now (S.machine core.now) }
    requires inside { number < length driver.now.drives }
    ensures { (h : List ChangeOf) → S.stands core.now h
        → result ≡ driven_value driver.now ((S.machine core.now).line h).values number }
{
    let place = driver.drives.as_slice()[number];
    let first_enable = core.outputs() - driver.drives.len();
    drive(core.output(place), core.output(first_enable + number))
}

/// The delay of the driven output with this number at a change of an input, before which it showed `was`.
fn driven_delay(
    driver: &Driver,
    input: usize,
    number: usize,
    was: Drive,
    value: Drive,
) -> Option<u64>
    ensures { result ≡ driven_delay driver.now input number was value }
{
    if was == value {
        return None;
    }
    let change = DriveChange {
        input,
        number,
        from: was,
        to: value,
    };
    Some(least_delay(driver.paths.as_slice(), &change))
}

/// What the driven outputs show at the start: no delays.
fn show_start<S: CellSim>(
    alloc: Global,
    core: &S,
    driver: &Driver,
) -> Result<Items<DriveShown>, AllocError>
    requires sound { IsSound driver.now }
    requires is_core { IsCoreOf driver.now (S.machine core.now) }
    ensures shown { (h : List ChangeOf) → S.stands core.now h
        → IfOk result (λ shown. shown ≡ map (first_shown driver.now ((S.machine core.now).line h).values) (numbers driver.now)) }
    ensures each_drive { IfOk result (λ shown. length shown ≡ length driver.now.drives) }
{
    let mut shown = Items::new(alloc);
    for number in 0..driver.drives.len() {
        shown.push(DriveShown {
            value: driven_value(core, driver, number),
            delay: None,
        })?;
    }
    Ok(shown)
}

/// Takes what the driven outputs show over a change of an input, which the core has taken.
fn show_all<S: CellSim>(core: &S, driver: &Driver, input: usize, shown: &mut Items<DriveShown>)
    requires sound { IsSound driver.now }
    requires is_core { IsCoreOf driver.now (S.machine core.now) }
    requires each_drive { length shown.old ≡ length driver.now.drives }
    ensures shown { (h : List ChangeOf) → S.stands core.now h
        → shown.new ≡ each (λ number was. next_shown driver.now input ((S.machine core.now).line h).values was.value number)
        (numbers driver.now) shown.old }
    ensures each_drive { length shown.new ≡ length shown.old }
{
    for number in 0..shown.len() {
        let was = shown.as_slice()[number].value;
        let value = driven_value(core, driver, number);
        let delay = driven_delay(driver, input, number, was, value);
        shown.set(number, DriveShown { value, delay });
    }
}
