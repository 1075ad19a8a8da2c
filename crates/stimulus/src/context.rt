//! What the lines before a line leave to be known.
ghost use Rattle.std.specs.Prelude.{◌≡◌, ◌+◌, ◌<◌, ◌^◌};
ghost use Rattle.stimulus.specs.Context.{after as after_of, start};

use cell_machine::Change;

/// What a line says.
#[derive(Clone, Copy)]
pub(crate) enum Said {
    /// Nothing.
    Nothing,
    /// A section on the cell with this number begins.
    Begins(usize),
    /// The section's cell is given a change.
    Changes(Change),
}

/// What the lines so far leave to be known.
#[derive(Clone, Copy)]
pub(crate) struct Context {
    /// The cell of the section that the last of them stands in, if a section has begun.
    pub cell: Option<usize>,
    /// The time, in picoseconds, of the section's last change, if it has one.
    pub last: Option<u64>,
    /// How many changes the file has so far.
    pub changes: usize,
}

impl Context {
    /// What is known ahead of the first line.
    pub(crate) fn new() -> Context
        ensures { result ≡ start }
    {
        Context {
            cell: None,
            last: None,
            changes: 0,
        }
    }

    /// What is known after a line that says this.
    pub(crate) fn after(self, said: Said) -> Context
        requires { self.changes + 1 < 2 ^ 64 }
        ensures { result ≡ after_of self said }
    {
        match said {
            Said::Nothing => self,
            Said::Begins(cell) => Context {
                cell: Some(cell),
                last: None,
                changes: self.changes,
            },
            Said::Changes(change) => Context {
                cell: self.cell,
                last: Some(change.at),
                changes: self.changes + 1,
            },
        }
    }
}
