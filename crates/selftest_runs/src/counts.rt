//! What is counted.
ghost use Rattle.std.specs.Prelude.{◌≡◌, ◌+◌, [], List, Ok, IfOk, IfErr, OnOk, not};
ghost use Rattle.trit_cubes.specs.Filling.{is_unknown as is_unknown_value};
ghost use Rattle.cell_machine.specs.declared.changes.Change.{Change as ChangeOf};
ghost use Rattle.cell_machine.specs.History.{IsProperFrom};
ghost use Rattle.cell_machine.specs.Lines.{trace};
ghost use Rattle.selftest_runs.specs.Counts.{no_counts, plus, one_if, known_values as known_values_of, known_in};

use cell_machine::{CellSim, Change};
use std::alloc::AllocError;
use text_io::Stop;
use trit_cubes::Trit;

/// What is counted of cells that are run beside their damaged models.
#[derive(Clone, Copy)]
pub struct Counts {
    /// How many output values of the cells after the changes are 0 or 1.
    pub known: u64,
    /// How many cells have a damaged module whose trace is unlike the cell's.
    pub verilog: u64,
    /// How many cells have a damaged entity whose trace is unlike the cell's.
    pub vital: u64,
}

impl Counts {
    /// Before the first cell.
    pub fn none() -> Counts
        ensures { result ≡ no_counts }
    {
        Counts {
            known: 0,
            verilog: 0,
            vital: 0,
        }
    }

    /// These and others together. An `Err` comes only where a count comes to 2 to the 64th.
    pub fn plus(self, more: Counts) -> Result<Counts, AllocError>
        ensures { IfOk result (λ sum. sum ≡ plus self more) }
    {
        Ok(Counts {
            known: total(self.known, more.known)?,
            verilog: total(self.verilog, more.verilog)?,
            vital: total(self.vital, more.vital)?,
        })
    }

    /// Adds others, where they were counted. It stops only where memory was wanting or a count comes to 2 to the 64th.
    pub(crate) fn add(&mut self, more: Result<Counts, AllocError>) -> Result<(), Stop>
        ensures sum { OnOk result ((counts : Counts) × (more ≡ Ok counts) × (self.new ≡ plus self.old counts)) }
        ensures memory { IfErr result (λ stop. stop ≡ Stop.Memory) }
    {
        *self = self.plus(more?)?;
        Ok(())
    }
}

/// The sum of two counts. An `Err` comes only where it is 2 to the 64th or more.
fn total(one: u64, other: u64) -> Result<u64, AllocError>
    ensures { IfOk result (λ sum. sum ≡ one + other) }
{
    one.checked_add(other).ok_or(AllocError)
}

/// 1 for a fact that holds, else 0.
pub(crate) fn one_if(holds: bool) -> u64
    ensures { result ≡ one_if holds }
{
    if holds { 1 } else { 0 }
}

/// Whether a value is 0 or 1: 1 where it is, else 0.
fn known_value(value: Trit) -> usize
    ensures { result ≡ one_if (not (is_unknown_value value)) }
{
    match value {
        Trit::Unknown => 0,
        Trit::Zero | Trit::One => 1,
    }
}

/// How many output values that a simulator shows are 0 or 1.
fn known_shown<S: CellSim>(sim: &S) -> usize
    ensures { (h : List ChangeOf) → S.stands sim.now h → result ≡ known_values_of ((S.machine sim.now).line h) }
{
    let mut known = 0;
    for place in 0..sim.outputs() {
        known += known_value(sim.output(place));
    }
    known
}

/// Gives the changes to a simulator that stands at its start, and answers how many output values after them are 0 or 1. They are
/// changes of its inputs at times that rise strictly. An `Err` comes only where the count comes to 2 to the 64th.
pub fn known_values<S: CellSim>(sim: &mut S, changes: &[Change]) -> Result<u64, AllocError>
    requires start { S.stands sim.old [] }
    requires proper { IsProperFrom (S.machine sim.old).inputs [] changes.now }
    ensures { IfOk result (λ known. known ≡ known_in (trace (S.machine sim.old).line changes.now)) }
{
    let mut known = 0;
    for change in changes {
        sim.step(change.at, change.pin, change.to);
        known = total(known, known_shown(sim) as u64)?;
    }
    Ok(known)
}

/// The same of a simulator that was started. It is a function of any simulator, so that what it owns is let go at one place.
pub(crate) fn known_from_start<S: CellSim + Drop>(
    started: Result<S, AllocError>,
    changes: &[Change],
) -> Result<u64, AllocError>
    requires start { IfOk started (λ sim. S.stands sim []) }
    requires proper { IfOk started (λ sim. IsProperFrom (S.machine sim).inputs [] changes.now) }
    ensures { IfOk result (λ known. (sim : S) × (started ≡ Ok sim)
        × (known ≡ known_in (trace (S.machine sim).line changes.now))) }
{
    let mut sim = started?;
    known_values(&mut sim, changes)
}
