//! A change of an output of a model.
ghost use Rattle.std.specs.Prelude.{◌≡◌, true};
ghost use Rattle.cell_machine.specs.Delay.{path_delay};

use cell_machine::is_rise;
use trit_cubes::Trit;

/// A change of an output as its delay is looked for.
#[derive(Clone, Copy)]
pub struct OutputChange {
    /// The number of the input whose change caused it.
    pub input: usize,
    /// The number of the output's port.
    pub port: usize,
    /// The value that the output had.
    pub from: Trit,
    /// The value that it has.
    pub to: Trit,
}

impl OutputChange {
    /// The delay of the change by a path with these delays, in picoseconds: the rise of a possible rise, else the fall.
    pub fn delay(self, rise: u64, fall: u64) -> u64
        ensures { result ≡ path_delay self.from self.to (record { active = true; rise = rise; fall = fall }) }
    {
        if is_rise(self.from, self.to) {
            rise
        } else {
            fall
        }
    }
}
