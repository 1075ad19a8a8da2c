//! What is printed of a simulator.
use crate::drives::Drive;
use cell_machine::{CellSim, Sizes};
use trit_cubes::Trit;

/// A simulator whose trace is printed: it takes changes of inputs one at a time and shows the last line of the trace, in which
/// an output may be `z`.
///
/// Inputs, outputs and checks are numbered from 0, inputs and outputs among the ports of their direction. No call takes
/// memory.
pub trait TraceSim {
    ghost use Rattle.std.specs.Prelude.{◌≡◌, ◌<◌, List, ◌∷◌, slice_index_or, false, None};
    ghost use Rattle.cell_machine.specs.declared.changes.Change.{Change};
    ghost use Rattle.cell_machine.specs.History.{ComesAfter};
    ghost use Rattle.stimulus.specs.declared.drives.Drive.TheVariants as drive;
    ghost use Rattle.stimulus.specs.DriveLines.{DriveMachine, IsSized};

    /// What the simulator runs. It stays the same.
    ghost machine: { Self → DriveMachine };

    /// The simulator stands after this history, which has the newest change first.
    ghost stands: { Self → List Change → Type 0 };

    /// The numbers of inputs, of outputs and of timing checks.
    fn sizes(&self) -> Sizes
        ensures inputs { result.inputs ≡ (machine self.now).inputs }
        ensures outputs { result.outputs ≡ (machine self.now).outputs }
        ensures checks { result.checks ≡ (machine self.now).checks };

    /// The number of outputs.
    fn outputs(&self) -> usize
        ensures { result ≡ (machine self.now).outputs }
    {
        self.sizes().outputs
    }

    /// The number of timing checks.
    fn checks(&self) -> usize
        ensures { result ≡ (machine self.now).checks }
    {
        self.sizes().checks
    }

    /// Takes one change: at the time `at`, in picoseconds, the input `pin` becomes `to`. The time is after that of the
    /// change before.
    fn step(&mut self, at: u64, pin: usize, to: Trit)
        requires pin { pin < (machine self.old).inputs }
        requires time { (h : List Change) × (stands self.old h × ComesAfter at h) }
        ensures machine { machine self.new ≡ machine self.old }
        ensures stands { (h : List Change) → stands self.old h → stands self.new (record { at = at; pin = pin; to = to } ∷ h) };

    /// What an output shows.
    fn value(&self, place: usize) -> Drive
        requires { place < (machine self.now).outputs }
        ensures { (h : List Change) → stands self.now h
            → result ≡ slice_index_or ((machine self.now).line h).values place drive.Unknown };

    /// The delay of an output in picoseconds, there exactly where the output changed at the last change.
    fn delay(&self, place: usize) -> Option<u64>
        requires { place < (machine self.now).outputs }
        ensures { (h : List Change) → stands self.now h → result ≡ slice_index_or ((machine self.now).line h).delays place None };

    /// Whether a check reported at the last change.
    fn reported(&self, check: usize) -> bool
        requires { check < (machine self.now).checks }
        ensures { (h : List Change) → stands self.now h
            → result ≡ slice_index_or ((machine self.now).line h).reports check false };

    /// Each line has an entry for each output and each check.
    ghost sized: { (s : Self) → IsSized (machine s) };
}

/// A simulator of a cell or of a model shows its values, and never `z`.
impl<S: CellSim> TraceSim for S {
    ghost use Rattle.stimulus.specs.DriveLines.{drive_machine};
    ghost use Rattle.stimulus.specs.DriveSized.{drive_machine_sized};

    ghost machine = { λ s. drive_machine (S.machine s) };

    ghost stands = { λ s h. S.stands s h };

    fn sizes(&self) -> Sizes {
        CellSim::sizes(self)
    }

    fn step(&mut self, at: u64, pin: usize, to: Trit) {
        CellSim::step(self, at, pin, to);
    }

    fn value(&self, place: usize) -> Drive {
        Drive::of(CellSim::output(self, place))
    }

    fn delay(&self, place: usize) -> Option<u64> {
        CellSim::delay(self, place)
    }

    fn reported(&self, check: usize) -> bool {
        CellSim::reported(self, check)
    }

    ghost sized = { λ s. drive_machine_sized (S.machine s) (S.sized s) };
}
