//! The delays of driven outputs.
ghost use Rattle.std.specs.Prelude.{◌≡◌, ◌∷◌, []};
ghost use Rattle.cell_machine.specs.Delay.{least};
ghost use Rattle.driven_traces.specs.DriveDelays.{drive_delay, leading_delays, least_delay};

use cell_machine::lesser;
use stimulus::Drive;

/// The delay from an input to a driven output.
#[derive(Clone, Copy, PartialEq, Eq)]
pub struct DrivePath {
    /// The number of the input where it starts, from 0 among the inputs.
    pub from: usize,
    /// The number of the driven output where it ends, from 0 among the driven outputs.
    pub drive: usize,
    /// The delay of a possible rise of the output, in picoseconds.
    pub rise: u64,
    /// The delay of the output's other changes, in picoseconds; where it begins or ceases to float at an unknown value, the
    /// two delays decide together.
    pub fall: u64,
}

impl DrivePath {
    /// The path's delay of a change: its rise from 0 or to 1, the greater of its delays from unknown to floating, the lesser
    /// from floating to unknown, else its fall.
    fn delay(&self, from: Drive, to: Drive) -> u64
        ensures { result ≡ drive_delay from to self.now }
    {
        match (from, to) {
            (Drive::Zero, _) => self.rise,
            (_, Drive::One) => self.rise,
            (Drive::Unknown, Drive::Floating) => self.rise.max(self.fall),
            (Drive::Floating, Drive::Unknown) => self.rise.min(self.fall),
            _ => self.fall,
        }
    }
}

/// A change of a driven output as its delay is looked for.
#[derive(Clone, Copy)]
pub(crate) struct DriveChange {
    /// The number of the input whose change caused it.
    pub input: usize,
    /// The number of the driven output.
    pub number: usize,
    /// What it showed before.
    pub from: Drive,
    /// What it shows after.
    pub to: Drive,
}

/// A path's delay of a change, there where the path leads from the input to the output.
fn leading_delay(path: &DrivePath, change: &DriveChange) -> Option<u64>
    ensures { result ≡ least (leading_delays change.now (path.now ∷ [])) }
{
    if path.from == change.input && path.drive == change.number {
        Some(path.delay(change.from, change.to))
    } else {
        None
    }
}

/// The delay of a change: the least over the paths from the input to the output, 0 where there is none.
pub(crate) fn least_delay(paths: &[DrivePath], change: &DriveChange) -> u64
    ensures { result ≡ least_delay change.now paths.now }
{
    let mut best = None;
    for path in paths {
        best = lesser(best, leading_delay(path, change));
    }
    match best {
        Some(delay) => delay,
        None => 0,
    }
}
