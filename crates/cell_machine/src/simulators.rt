//! What every simulator of a cell or a model answers.
use crate::shown::Shown;
use trit_cubes::Trit;

/// The numbers of inputs, of outputs and of timing checks.
#[derive(Clone, Copy)]
pub struct Sizes {
    /// The number of inputs.
    pub inputs: usize,
    /// The number of outputs.
    pub outputs: usize,
    /// The number of timing checks.
    pub checks: usize,
}

/// A simulator: it takes changes of inputs one at a time and shows the last line of the trace.
///
/// Inputs, outputs and checks are numbered from 0, inputs and outputs among the ports of their direction. The stepping
/// calls take no memory.
pub trait CellSim {
    ghost use Rattle.std.specs.Prelude.{◌≡◌, ◌<◌, List, ◌∷◌, slice_index_or, false, None};
    ghost use Rattle.trit_cubes.specs.declared.trits.Trit.TheVariants.{Unknown};
    ghost use Rattle.cell_machine.specs.declared.changes.Change.{Change};
    ghost use Rattle.cell_machine.specs.History.{ComesAfter};
    ghost use Rattle.cell_machine.specs.Lines.{Machine, IsSized};

    /// What the simulator runs. It stays the same.
    ghost machine: { Self → Machine };

    /// The simulator stands after this history, which has the newest change first.
    ghost stands: { Self → List Change → Type 0 };

    /// The numbers of inputs, of outputs and of timing checks.
    fn sizes(&self) -> Sizes
        ensures inputs { result.inputs ≡ (machine self.now).inputs }
        ensures outputs { result.outputs ≡ (machine self.now).outputs }
        ensures checks { result.checks ≡ (machine self.now).checks };

    /// The number of inputs.
    fn inputs(&self) -> usize
        ensures { result ≡ (machine self.now).inputs }
    {
        self.sizes().inputs
    }

    /// The number of outputs.
    fn outputs(&self) -> usize
        ensures { result ≡ (machine self.now).outputs }
    {
        self.sizes().outputs
    }

    /// The number of timing checks.
    fn checks(&self) -> usize
        ensures { result ≡ (machine self.now).checks }
    {
        self.sizes().checks
    }

    /// Takes one change: at the time `at`, in picoseconds, the input `pin` becomes `to`. The time is after that of the
    /// change before.
    fn step(&mut self, at: u64, pin: usize, to: Trit)
        requires pin { pin < (machine self.old).inputs }
        requires time { (h : List Change) × (stands self.old h × ComesAfter at h) }
        ensures machine { machine self.new ≡ machine self.old }
        ensures stands { (h : List Change) → stands self.old h → stands self.new (record { at = at; pin = pin; to = to } ∷ h) };

    /// What an output shows.
    fn shown(&self, place: usize) -> Shown
        requires { place < (machine self.now).outputs }
        ensures value { (h : List Change) → stands self.now h
            → result.value ≡ slice_index_or ((machine self.now).line h).values place Unknown }
        ensures delay { (h : List Change) → stands self.now h
            → result.delay ≡ slice_index_or ((machine self.now).line h).delays place None };

    /// The value of an output.
    fn output(&self, place: usize) -> Trit
        requires { place < (machine self.now).outputs }
        ensures { (h : List Change) → stands self.now h
            → result ≡ slice_index_or ((machine self.now).line h).values place Unknown }
    {
        self.shown(place).value
    }

    /// The delay of an output in picoseconds, there exactly where the output changed at the last change.
    fn delay(&self, place: usize) -> Option<u64>
        requires { place < (machine self.now).outputs }
        ensures { (h : List Change) → stands self.now h → result ≡ slice_index_or ((machine self.now).line h).delays place None }
    {
        self.shown(place).delay
    }

    /// Whether a check reported at the last change.
    fn reported(&self, check: usize) -> bool
        requires { check < (machine self.now).checks }
        ensures { (h : List Change) → stands self.now h
            → result ≡ slice_index_or ((machine self.now).line h).reports check false };

    /// Each line has an entry for each output and each check.
    ghost sized: { (s : Self) → IsSized (machine s) };
}
