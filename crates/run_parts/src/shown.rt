//! What the outputs of a model show.
ghost use Rattle.std.specs.Prelude.{◌≡◌};

use trit_cubes::Trit;

/// What an output shows: its value, and its delay in picoseconds where it changed at the last change.
#[derive(Clone, Copy)]
pub struct ShownPort {
    /// The number of its port.
    pub port: usize,
    /// The value.
    pub value: Trit,
    /// The delay, there exactly where the output changed.
    pub delay: Option<u64>,
}

impl ShownPort {
    /// The value and the delay alone.
    pub fn alone(self) -> cell_machine::Shown
        ensures { result ≡ record { value = self.value; delay = self.delay } }
    {
        cell_machine::Shown {
            value: self.value,
            delay: self.delay,
        }
    }
}
